//! Laws of the translation. Each is a function that does nothing.

ghost use Rattle.std.specs.Prelude.{◌≡◌, true, [], Some};
ghost use Rattle.kola_values.specs.Types.{TypeTree, TBool};
ghost use Rattle.kola_values.specs.Databases.{Classes, Objects};
ghost use Rattle.kola_schema.specs.Meets.{Meets};
ghost use Rattle.kola_schema.specs.Schemas.{is_schema};
ghost use Rattle.kola_canon.specs.Encoding.{enc, enc_type};
ghost use Rattle.kola_term.specs.Meaning.{den, holds_at};
ghost use Rattle.kola_term.specs.Typing.{out, is_typed};
ghost use Rattle.oql_tree.specs.QueryTrees.{QueryTree};
ghost use Rattle.oql_check.specs.QueryTypes.{Scope};
ghost use Rattle.oql_check.specs.TypedQueries.{HasQueryType};
ghost use Rattle.oql_check.specs.QueryMeaning.{Env, truth, mean};
ghost use Rattle.oql_check.specs.Environments.{Fills};
ghost use Rattle.kola_translate.specs.Translation.{type_of, env_type, env_value, tr, pr};

/// In every database that meets a well-formed schema, and under every environment of the variables in scope, the translation of a typed query
/// has at the encoded environment the encoding of the query's value; and as a predicate it has the truth of a query of truth values.
pub fn the_translation_has_the_value_of_the_query()
    ensures value { (S : Classes) (d : Objects) → is_schema S ≡ true → Meets S d →
        (ns : Scope) (e : QueryTree) (t : TypeTree) (env : Env) → HasQueryType S ns e t → Fills d env ns →
        den S d (tr S ns e) (env_value env) ≡ enc (mean S d e env) }
    ensures truth { (S : Classes) (d : Objects) → is_schema S ≡ true → Meets S d →
        (ns : Scope) (e : QueryTree) (env : Env) → HasQueryType S ns e TBool → Fills d env ns →
        holds_at S d (pr S ns e) (env_value env) ≡ truth (mean S d e env) }
{}

/// The type that the translation reads off a typed query is the query's.
pub fn the_translation_reads_the_types_of_queries()
    ensures { (S : Classes) (ns : Scope) (e : QueryTree) (t : TypeTree) → HasQueryType S ns e t → type_of S ns e ≡ t }
{}

/// The translation of a typed query is typed at the encoded type of the variables in scope: as a function with the encoding of the query's
/// type, and that of a query of truth values as a predicate too.
pub fn the_translation_has_the_encoded_type()
    ensures function { (S : Classes) → is_schema S ≡ true → (ns : Scope) (e : QueryTree) (t : TypeTree) →
        HasQueryType S ns e t → out S [] (tr S ns e) (env_type ns) ≡ Some (enc_type t) }
    ensures predicate { (S : Classes) → is_schema S ≡ true → (ns : Scope) (e : QueryTree) →
        HasQueryType S ns e TBool → is_typed S [] (pr S ns e) (env_type ns) ≡ true }
{}

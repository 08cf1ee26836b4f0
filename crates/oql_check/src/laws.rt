//! Laws of the types and the meaning of queries. Each is a function that does nothing.

ghost use Rattle.std.specs.Prelude.{◌≡◌, ℕ, true, Ok, ◌⊎◌, ◌↔◌};
ghost use Rattle.kola_values.specs.Types.{TypeTree};
ghost use Rattle.kola_values.specs.Databases.{Classes, Objects, HasType};
ghost use Rattle.kola_schema.specs.Meets.{Meets};
ghost use Rattle.oql_tree.specs.QueryTrees.{QueryTree};
ghost use Rattle.oql_check.specs.Limits.{small, AreSmall};
ghost use Rattle.oql_check.specs.QueryTypes.{Scope, query_type, FirstFault};
ghost use Rattle.oql_check.specs.TypedQueries.{HasQueryType};
ghost use Rattle.oql_check.specs.QueryMeaning.{Env, mean};
ghost use Rattle.oql_check.specs.Environments.{Fills};
ghost use Rattle.oql_check.specs.declared.fault.CheckWhy.{CheckWhy};

/// A query has a type or a first fault; not both, and no two of either.
pub fn a_query_is_typed_or_has_one_first_fault()
    ensures some { (S : Classes) (ns : Scope) (e : QueryTree) →
        ((t : TypeTree) × HasQueryType S ns e t) ⊎ ((at : ℕ) × (c : CheckWhy) × FirstFault S ns e at c) }
    ensures not_both { (S : Classes) (ns : Scope) (e : QueryTree) (t : TypeTree) (at : ℕ) (c : CheckWhy) →
        HasQueryType S ns e t → FirstFault S ns e at c → ⊥ }
    ensures one_type { (S : Classes) (ns : Scope) (e : QueryTree) (t u : TypeTree) → HasQueryType S ns e t →
        HasQueryType S ns e u → t ≡ u }
    ensures one_fault { (S : Classes) (ns : Scope) (e : QueryTree) (at place : ℕ) (c why : CheckWhy) →
        FirstFault S ns e at c → FirstFault S ns e place why → (at ≡ place) × (c ≡ why) }
{}

/// The typing answers a type exactly where the query has it.
pub fn the_typing_answers_the_type_of_a_query()
    ensures { (S : Classes) (ns : Scope) (e : QueryTree) (t : TypeTree) →
        (query_type S ns e ≡ Ok t) ↔ HasQueryType S ns e t }
{}

/// In every database that meets the schema, and under every environment of the types in scope, a typed query has a value
/// of its type.
pub fn typed_queries_have_values_of_their_types()
    ensures { (S : Classes) (d : Objects) → Meets S d → (ns : Scope) (e : QueryTree) (t : TypeTree) (env : Env) →
        HasQueryType S ns e t → Fills d env ns → HasType d (mean S d e env) t }
{}

/// No typed query has a type of more than 4,096 nodes, where no variable in scope has one.
pub fn types_of_queries_are_small()
    ensures { (S : Classes) (ns : Scope) (e : QueryTree) (t : TypeTree) → AreSmall ns → HasQueryType S ns e t →
        small t ≡ true }
{}

//! What holds of substitutions. Each is a function that does nothing.

ghost use Rattle.std.specs.Prelude.{◌≡◌, ℕ, true, List, Some};
ghost use Rattle.kola_values.specs.Types.{TypeTree};
ghost use Rattle.kola_values.specs.Databases.{Classes, look_up};
ghost use Rattle.kola_schema.specs.Schemas.{is_schema};
ghost use Rattle.kola_term.specs.Terms.{TermTree};
ghost use Rattle.kola_term.specs.Typing.{Context, MetaTree};
ghost use Rattle.kola_term.specs.Places.{sub_at, place, put_in, Typed};
ghost use Rattle.kola_term.specs.Agreement.{kind_out};
ghost use Rattle.kola_match.specs.Occurring.{variable, Occurs};
ghost use Rattle.kola_match.specs.Substitutions.{Substitution, sub_type, inst, IsTyped};

/// Under a well-formed schema, an instance of a typed term by a typed substitution is typed, at the instance of its
/// input type and with that of its output type.
pub fn typed_substitutions_keep_types()
    ensures { (S : Classes) → is_schema S ≡ true → (x y : Context) (s : Substitution) → IsTyped S y s x →
        (t : TermTree) (u w : TypeTree) → kind_out S x t u ≡ Some w →
        kind_out S y (inst s t) (sub_type s.types u) ≡ Some (sub_type s.types w) }
{}

/// An instance has the instances of a term's parts at the same paths, exchanged alike; and under a well-formed schema,
/// by a typed substitution, with the instances of their input types.
pub fn places_go_with_substitutions()
    ensures parts { (s : Substitution) (q : List ℕ) (t l : TermTree) → sub_at t q ≡ Some l →
        sub_at (inst s t) q ≡ Some (inst s l) }
    ensures exchanges { (s : Substitution) (q : List ℕ) (t r b : TermTree) → put_in t q r ≡ Some b →
        put_in (inst s t) q (inst s r) ≡ Some (inst s b) }
    ensures inputs { (S : Classes) → is_schema S ≡ true → (x y : Context) (s : Substitution) → IsTyped S y s x →
        (q : List ℕ) (t : TermTree) (u w : TypeTree) → place S x t u q ≡ Some w →
        place S y (inst s t) (sub_type s.types u) q ≡ Some (sub_type s.types w) }
{}

/// Two instances of one term agree on each variable that stands in the side that gives it.
pub fn instances_of_one_term_agree()
    ensures { (s o : Substitution) (p t : TermTree) (v : List ℕ × MetaTree) → inst s p ≡ t → inst o p ≡ t → Occurs p v →
        inst s (variable v.0 v.1) ≡ inst o (variable v.0 v.1) }
{}

/// Two substitutions that agree on each variable of a term give one instance of it; and each variable of a typed term is
/// declared in the context, of its kind.
pub fn variables_decide_instances()
    ensures agree { (s o : Substitution) (p : TermTree) →
        ((v : List ℕ × MetaTree) → Occurs p v → inst s (variable v.0 v.1) ≡ inst o (variable v.0 v.1)) → inst s p ≡ inst o p }
    ensures declared { (S : Classes) (x : Context) (p : TermTree) (t : TypeTree) → Typed S x p t →
        (n : List ℕ) (m : MetaTree) → Occurs p (n, m) →
        (d : MetaTree) × (look_up n x ≡ Some d) × (variable n m ≡ variable n d) }
{}

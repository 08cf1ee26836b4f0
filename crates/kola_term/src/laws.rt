//! Laws of typing, value and places, on which the laws of the algebra rest. Each is a function that does nothing.

ghost use Rattle.std.specs.Prelude.{◌≡◌, ℕ, List, [], Some, ◌⊎◌};
ghost use Rattle.kola_values.specs.Types.{TypeTree};
ghost use Rattle.kola_values.specs.Values.{ValueTree};
ghost use Rattle.kola_values.specs.Databases.{Classes, Objects, HasType};
ghost use Rattle.kola_schema.specs.Meets.{Meets};
ghost use Rattle.kola_term.specs.Terms.{FunTree, TermTree};
ghost use Rattle.kola_term.specs.Meaning.{den};
ghost use Rattle.kola_term.specs.Typing.{Context, out};
ghost use Rattle.kola_term.specs.Places.{Typed, sub_at, place, put_in};
ghost use Rattle.kola_term.specs.Agreement.{Agree, Serves};
ghost use Rattle.kola_term.specs.Faults.{TypeWhy, Fine, FaultAt};

/// A typed function without variables takes values of its input type to values of its output type, in every database
/// that meets the schema.
pub fn typed_functions_keep_types()
    ensures { (S : Classes) (d : Objects) → Meets S d → (f : FunTree) (t u : TypeTree) (v : ValueTree) →
        out S [] f t ≡ Some u → HasType d v t → HasType d (den S d f v) u }
{}

/// A typed term is typed at each of its places, at the input type of the place.
pub fn typed_terms_are_typed_at_each_place()
    ensures { (S : Classes) (x : Context) (q : List ℕ) (t l : TermTree) (u : TypeTree) → Typed S x t u →
        sub_at t q ≡ Some l → (w : TypeTree) × (place S x t u q ≡ Some w) × Typed S x l w }
{}

/// In every database that meets the schema, a part that is replaced by one of equal value at every value of the place's
/// type keeps the whole term's value.
pub fn equal_parts_keep_the_value()
    ensures { (S : Classes) (d : Objects) → Meets S d → (q : List ℕ) (t : TermTree) (u : TypeTree) (l r b : TermTree)
        (w : TypeTree) → Typed S [] t u → sub_at t q ≡ Some l → place S [] t u q ≡ Some w → put_in t q r ≡ Some b →
        Agree S d w l r → Agree S d u t b }
{}

/// A part that is replaced by one of the same kind and output type keeps the whole term's type.
pub fn parts_of_one_type_keep_the_type()
    ensures { (S : Classes) (x : Context) (q : List ℕ) (t : TermTree) (u : TypeTree) (l r b : TermTree) (w : TypeTree) →
        sub_at t q ≡ Some l → place S x t u q ≡ Some w → put_in t q r ≡ Some b → Serves S x (Some w) l r →
        Serves S x (Some u) t b }
{}

/// A term at an input type is fine, with an output type, or has a first fault; not both, and no two faults.
pub fn a_term_is_fine_or_has_one_first_fault()
    ensures some { (S : Classes) (x : Context) (t : TermTree) (T : TypeTree) →
        ((u : TypeTree) × Fine S x t T u) ⊎ ((q : List ℕ) × (why : TypeWhy) × FaultAt S x t T q why) }
    ensures not_both { (S : Classes) (x : Context) (t : TermTree) (T u : TypeTree) (q : List ℕ) (why : TypeWhy) →
        FaultAt S x t T q why → Fine S x t T u → ⊥ }
    ensures one { (S : Classes) (x : Context) (t : TermTree) (T : TypeTree) (q p : List ℕ) (why how : TypeWhy) →
        FaultAt S x t T q why → FaultAt S x t T p how → (q ≡ p) × (why ≡ how) }
{}

/// Each part of a fine term is fine at its place.
pub fn parts_of_a_fine_term_are_fine()
    ensures { (S : Classes) (x : Context) (q : List ℕ) (t l : TermTree) (T u : TypeTree) → Fine S x t T u → sub_at t q
        ≡ Some l →
        (w : TypeTree) × (v : TypeTree) × (place S x t T q ≡ Some w) × Fine S x l w v }
{}

/// A fine part in the place of a part of the same kind and output type keeps a fine term fine, with its output type.
pub fn fine_parts_keep_a_fine_term()
    ensures { (S : Classes) (x : Context) (q : List ℕ) (t l r b : TermTree) (T u w v : TypeTree) → Fine S x t T u →
        sub_at t q ≡ Some l → place S x t T q ≡ Some w → put_in t q r ≡ Some b → Serves S x (Some w) l r →
        Fine S x r w v → Fine S x b T u }
{}

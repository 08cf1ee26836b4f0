//! What holds of functions that are shown to be injective. It is a function that does nothing.

ghost use Rattle.std.specs.Prelude.{◌≡◌, ℕ, true, List};
ghost use Rattle.kola_values.specs.Types.{TypeTree};
ghost use Rattle.kola_values.specs.Databases.{Classes};
ghost use Rattle.kola_schema.specs.Schemas.{is_schema};
ghost use Rattle.kola_term.specs.Terms.{FunTree};
ghost use Rattle.kola_term.specs.Typing.{Context};
ghost use Rattle.kola_injective.specs.Derived.{Derived, InjectiveWhere};

/// Under a well-formed schema, a function that is shown to be injective is so in every database that meets the schema:
/// under every typed substitution without variables whose functions for the supposed variables are injective there, it
/// takes no two values of its input type to one.
pub fn derived_functions_are_injective()
    ensures { (S : Classes) → is_schema S ≡ true → (x : Context) (hyps : List (List ℕ)) (f : FunTree) (t : TypeTree) →
        Derived S x hyps f t → InjectiveWhere S x hyps f t }
{}

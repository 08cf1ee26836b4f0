//! Copies of types and values in lists.
ghost use Rattle.std.specs.Prelude.{◌≡◌, [], ◌∷◌, ◌++◌, map, refl};
ghost use Rattle.std.proofs.lemmas.List.{map_push};
ghost use Rattle.std.proofs.Common.{sym, ◌∙◌};
ghost use Rattle.kola_values.specs.Views.{type_tree, value_tree};

use crate::{Fields, Set, Ty, Value, ValueFields};
use kola_core::{Duplicate, Memory};

impl Duplicate for Ty {
    ghost same = { λ t u. type_tree t ≡ type_tree u };

    ghost same_all = { λ ts us. map type_tree ts ≡ map type_tree us };

    ghost none = { refl };

    ghost more = { λ ts us t u p q. map_push type_tree ts t ∙ (λ i. p i ++ q i ∷ []) ∙ sym (map_push type_tree us u) };

    fn copy(&self) -> Result<Ty, Memory> {
        self.copy()
    }
}

impl Duplicate for Value {
    ghost same = { λ v w. value_tree v ≡ value_tree w };

    ghost same_all = { λ vs ws. map value_tree vs ≡ map value_tree ws };

    ghost none = { refl };

    ghost more = { λ vs ws v w p q. map_push value_tree vs v ∙ (λ i. p i ++ q i ∷ []) ∙ sym
        (map_push value_tree ws w) };

    fn copy(&self) -> Result<Value, Memory> {
        self.copy()
    }
}

impl Duplicate for Fields {
    ghost same = { λ f g. f ≡ g };

    ghost same_all = { λ fs gs. fs ≡ gs };

    ghost none = { refl };

    ghost more = { λ fs gs f g p q i. p i ++ q i ∷ [] };

    fn copy(&self) -> Result<Fields, Memory> {
        self.copy()
    }
}

impl Duplicate for ValueFields {
    ghost same = { λ f g. f ≡ g };

    ghost same_all = { λ fs gs. fs ≡ gs };

    ghost none = { refl };

    ghost more = { λ fs gs f g p q i. p i ++ q i ∷ [] };

    fn copy(&self) -> Result<ValueFields, Memory> {
        self.copy()
    }
}

impl Duplicate for Set {
    ghost same = { λ s t. s ≡ t };

    ghost same_all = { λ ss ts. ss ≡ ts };

    ghost none = { refl };

    ghost more = { λ ss ts s t p q i. p i ++ q i ∷ [] };

    fn copy(&self) -> Result<Set, Memory> {
        self.copy()
    }
}

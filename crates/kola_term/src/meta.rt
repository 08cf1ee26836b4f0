//! What a context says of the variables of a rule.

ghost use Rattle.std.specs.Prelude.{◌≡◌, ◌∷◌, [], ◌++◌, map, refl, IfOk};
ghost use Rattle.std.specs.Option.{option_map};
ghost use Rattle.std.proofs.lemmas.List.{map_push};
ghost use Rattle.std.proofs.Common.{sym, ◌∙◌};
ghost use Rattle.kola_values.specs.Databases.{look_up};
ghost use Rattle.kola_term.specs.ContextView.{meta_tree, meta_at, context_of};

use kola_core::{Duplicate, Items, Memory, Name};
use kola_values::Ty;

/// The kind and the types of a variable.
#[derive(Drop)]
pub enum MetaTy {
    /// A function with its input type and its output type.
    Fun(Ty, Ty),
    /// A predicate with its input type.
    Pred(Ty),
    /// A constant with its type.
    Const(Ty),
}

/// Variables by their names. The first entry of a name counts.
pub type MetaCtx = Items<(Name, MetaTy)>;

impl MetaTy {
    /// A copy of it.
    pub fn copy(&self) -> Result<MetaTy, Memory>
        ensures { IfOk result (λ m. meta_tree m ≡ meta_tree self.now) }
    {
        match self {
            MetaTy::Fun(t, u) => Ok(MetaTy::Fun(t.copy()?, u.copy()?)),
            MetaTy::Pred(t) => Ok(MetaTy::Pred(t.copy()?)),
            MetaTy::Const(t) => Ok(MetaTy::Const(t.copy()?)),
        }
    }
}

impl Duplicate for MetaTy {
    ghost same = { λ m n. meta_tree m ≡ meta_tree n };

    ghost same_all = { λ ms ns. map meta_tree ms ≡ map meta_tree ns };

    ghost none = { refl };

    ghost more = { λ ms ns m n p q. map_push meta_tree ms m ∙ (λ i. p i ++ q i ∷ []) ∙ sym (map_push meta_tree ns n) };

    fn copy(&self) -> Result<MetaTy, Memory> {
        self.copy()
    }
}

/// What the context says of the name; `None` exactly where it says nothing.
pub(crate) fn declared<'a>(ctx: &'a MetaCtx, name: &Name) -> Option<&'a MetaTy>
    ensures { option_map meta_at result ≡ look_up name.now (context_of ctx.now) }
{
    for (known, meta) in ctx.as_slice() {
        if name.is(known) {
            return Some(meta);
        }
    }
    None
}

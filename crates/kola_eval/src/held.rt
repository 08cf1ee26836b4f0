//! Values that are lent or owned.
ghost use Rattle.std.specs.Prelude.{◌≡◌, IfOk};
ghost use Rattle.kola_values.specs.Views.{value_tree};
ghost use Rattle.kola_eval.specs.Lending.{lent_tree, held_tree};

use crate::lent::{Lent, boxed, owned};
use kola_core::Memory;
use kola_values::{BoxedValue, Value};
use std::alloc::Global;

/// A value that is lent or owned.
#[derive(Drop)]
pub(crate) enum Held<'a> {
    Lent(Lent<'a>),
    Own(BoxedValue),
}

impl<'a> Held<'a> {
    // The value, lent.
    pub(crate) fn as_lent(&self) -> Lent<'_>
        ensures { lent_tree result ≡ held_tree self.now }
    {
        match self {
            Held::Lent(v) => *v,
            Held::Own(v) => Lent::Whole(v.get()),
        }
    }

    // The value in a box of its own.
    pub(crate) fn into_boxed(self, alloc: Global) -> Result<BoxedValue, Memory>
        ensures { IfOk result (λ b. b ≡ held_tree self.entry) }
    {
        match self {
            Held::Lent(v) => boxed(alloc, v),
            Held::Own(v) => Ok(v),
        }
    }

    // The value by itself.
    pub(crate) fn into_value(self, alloc: Global) -> Result<Value, Memory>
        ensures { IfOk result (λ v. value_tree v ≡ held_tree self.entry) }
    {
        match self {
            Held::Lent(v) => owned(alloc, v),
            Held::Own(v) => v.get().copy(),
        }
    }
}

//! The variables in scope with their types.

ghost use Rattle.std.specs.Prelude.{◌≡◌, [], ◌∷◌, drop, OnOk};
ghost use Rattle.std.specs.Option.{option_copied};
ghost use Rattle.kola_values.specs.Databases.{look_up};
ghost use Rattle.kola_translate.specs.Translation.{distance};

use kola_core::{Memory, Name};
use kola_values::BoxedTy;
use std::alloc::Global;
use std::marker::Model;

/// The variables in scope with their types, which contracts see as their list, newest first.
#[derive(Drop)]
pub(crate) struct Scope {
    entries: Vec<(Name, BoxedTy)>,
}

impl Model for Scope {
    ghost use Rattle.std.specs.Prelude.{List, ℕ};
    ghost use Rattle.std.specs.Coded.{coded_list, coded×, coded_ℕ};
    ghost use Rattle.kola_values.specs.Types.{TypeTree};
    ghost use Rattle.kola_values.specs.Models.TypeCode.{type_code};

    ghost Value = { List (List ℕ × TypeTree) };

    ghost coded = { coded_list (coded× (coded_list coded_ℕ) type_code) };

    ghost use Rattle.std.specs.Prelude.{reverse};

    ghost view = { λ a. reverse a.entries.items };
}

impl Scope {
    /// No variables.
    pub(crate) fn new(alloc: Global) -> Scope
        ensures { result ≡ [] }
    {
        Scope {
            entries: Vec::new(alloc),
        }
    }

    /// Adds a variable before the others.
    pub(crate) fn bind(&mut self, name: Name, t: BoxedTy) -> Result<(), Memory>
        ensures { OnOk result (self.new ≡ (name, t) ∷ self.old) }
    {
        self.entries.push((name, t))?;
        Ok(())
    }

    /// Takes the newest variable away, if there is one.
    pub(crate) fn unbind(&mut self)
        ensures { self.new ≡ drop 1 self.old }
    {
        let left = self.entries.len().saturating_sub(1);
        self.entries.truncate(left);
    }

    /// The type of the newest variable of the name; `None` where there is none. It walks from the newest on.
    pub(crate) fn find(&self, name: &Name) -> Option<&BoxedTy>
        ensures { option_copied result ≡ look_up name.now self.now }
    {
        let len = self.entries.len();
        for i in 0..len {
            let (x, t) = &self.entries[len - 1 - i];
            if name.is(x) {
                return Some(t);
            }
        }
        None
    }

    /// How many newer variables stand before the newest of the name; `None` where there is none. It walks from the newest on.
    pub(crate) fn place(&self, name: &Name) -> Option<usize>
        ensures { result ≡ distance name.now self.now }
    {
        let len = self.entries.len();
        for i in 0..len {
            let (x, _t) = &self.entries[len - 1 - i];
            if name.is(x) {
                return Some(i);
            }
        }
        None
    }
}

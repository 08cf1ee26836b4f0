//! The variables in scope with their types.

ghost use Rattle.std.specs.Prelude.{◌≡◌, ◌-◌, [], ◌∷◌, Some, drop, length, position, OnOk, IfOk};
ghost use Rattle.std.specs.Option.{option_copied};
ghost use Rattle.std.specs.Str.{bytes_eq};
ghost use Rattle.kola_values.specs.Databases.{look_up};
ghost use Rattle.oql_check.specs.ScopeTables.{IsGrown};

use kola_core::{Memory, Name, NameTable};
use kola_values::BoxedTy;
use std::alloc::Global;
use std::marker::Model;

/// A variable: its name's number, its type, and the place of the variable of this name that it hides.
#[derive(Drop)]
struct Variable {
    name: usize,
    ty: BoxedTy,
    hidden: Option<usize>,
}

/// The variables in scope with their types, which contracts see as their list, newest first. Each name that was ever in scope has a
/// number, by which the newest variable of the name is found in constant expected time.
#[derive(Drop)]
pub(crate) struct Scope {
    names: NameTable,
    newest: Vec<Option<usize>>,
    variables: Vec<Variable>,
}

impl Model for Scope {
    ghost use Rattle.std.specs.Prelude.{List, ℕ};
    ghost use Rattle.std.specs.Coded.{coded_list, coded×, coded_ℕ};
    ghost use Rattle.kola_values.specs.Types.{TypeTree};
    ghost use Rattle.kola_values.specs.Models.TypeCode.{type_code};

    ghost Value = { List (List ℕ × TypeTree) };

    ghost coded = { coded_list (coded× (coded_list coded_ℕ) type_code) };

    ghost use Rattle.std.specs.Prelude.{reverse};
    ghost use Rattle.oql_check.specs.ScopeTables.{named, IsKept};

    ghost view = { λ a. named a.names (reverse a.variables.items) };

    ghost invariant = { λ a. IsKept a.names a.newest.items (reverse a.variables.items) };
}

/// The number of a name, which is the next one where the name has none yet.
fn number_of(
    names: &mut NameTable,
    newest: &mut Vec<Option<usize>>,
    name: &Name,
) -> Result<usize, Memory>
    requires { length newest.old.items ≡ length names.old }
    ensures number { IfOk result (λ n. position (bytes_eq name.now) names.new ≡ Some n) }
    ensures grown { IsGrown names.old newest.old.items names.new newest.new.items }
{
    if let Some(number) = names.place(name.as_text()) {
        return Ok(number);
    }
    let number = newest.len();
    newest.reserve(1)?;
    names.add(name.as_text())?;
    newest.push_reserved(None);
    Ok(number)
}

impl Scope {
    /// No variables.
    pub(crate) fn new(alloc: Global) -> Scope
        ensures { result ≡ [] }
    {
        Scope {
            names: NameTable::new(alloc),
            newest: Vec::new(alloc),
            variables: Vec::new(alloc),
        }
    }

    /// How many variables there are.
    pub(crate) fn len(&self) -> usize
        ensures { result ≡ length self.now }
    {
        self.variables.len()
    }

    /// Adds a variable before the others.
    pub(crate) fn bind(&mut self, name: &Name, t: BoxedTy) -> Result<(), Memory>
        ensures { OnOk result (self.new ≡ (name.now, t) ∷ self.old) }
    {
        let name = number_of(&mut self.names, &mut self.newest, name)?;
        let place = self.variables.len();
        let hidden = self.newest[name];
        let ty = t;
        self.variables.push(Variable { name, ty, hidden })?;
        self.newest[name] = Some(place);
        Ok(())
    }

    /// Takes the newest variable away.
    fn unbind_newest(&mut self)
        ensures { self.new ≡ drop 1 self.old }
    {
        if let Some(variable) = self.variables.pop() {
            self.newest[variable.name] = variable.hidden;
        }
    }

    /// Takes the newest variables away, down to so many.
    pub(crate) fn unbind(&mut self, len: usize)
        ensures { self.new ≡ drop (length self.old - len) self.old }
    {
        while self.len() > len {
            self.unbind_newest();
        }
    }

    /// The type of the newest variable of the name; `None` where there is none. It takes constant expected time.
    pub(crate) fn find(&self, name: &Name) -> Option<&BoxedTy>
        ensures { option_copied result ≡ look_up name.now self.now }
    {
        let number = self.names.place(name.as_text())?;
        let place = self.newest[number]?;
        Some(&self.variables[place].ty)
    }
}

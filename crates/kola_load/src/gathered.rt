//! The members of a set while they are gathered.
ghost use Rattle.std.specs.Prelude.{◌≡◌, [], ◌∷◌, ◌++◌, map, IfOk};
ghost use Rattle.kola_values.specs.Sets.{canon};
ghost use Rattle.kola_values.specs.Views.{value_tree};

use kola_core::Memory;
use kola_values::{Set, Value};
use std::alloc::Global;
use std::marker::Model;

// Values that are gathered for a set. A value may come more than once, and is not kept each time: there is never room for more than some
// four times as many as there are different ones.
#[derive(Drop)]
pub(crate) struct Gathered {
    values: Vec<Value>,
}

impl Model for Gathered {
    ghost use Rattle.std.specs.Prelude.{List, map};
    ghost use Rattle.std.specs.Coded.{coded_list};
    ghost use Rattle.kola_values.specs.Values.{ValueTree};
    ghost use Rattle.kola_values.specs.Models.Total.{value_code};
    ghost use Rattle.kola_values.specs.Sets.{canon};
    ghost use Rattle.kola_values.specs.Views.{value_tree};

    ghost Value = { List ValueTree };

    ghost coded = { coded_list value_code };

    ghost view = { λ a. canon (map value_tree a.values.items) };
}

impl Gathered {
    // No value.
    pub(crate) fn new(alloc: Global) -> Gathered
        ensures { result ≡ [] }
    {
        Gathered {
            values: Vec::new(alloc),
        }
    }

    // The values and one more. Where the list is full, those that stand twice are dropped before it grows.
    pub(crate) fn with(self, alloc: Global, value: Value) -> Result<Gathered, Memory>
        ensures { IfOk result (λ g. g ≡ canon (self ++ value_tree value ∷ [])) }
    {
        let mut values = with_room(alloc, self.values)?;
        values.push(value)?;
        Ok(Gathered { values })
    }

    // The set of the values.
    pub(crate) fn into_set(self, alloc: Global) -> Result<Set, Memory>
        ensures { IfOk result (λ s. s ≡ self) }
    {
        Set::from_members(alloc, self.values)
    }
}

// The values, or where the list is full the different ones among them, with room for as many again.
fn with_room(alloc: Global, values: Vec<Value>) -> Result<Vec<Value>, Memory>
    ensures { IfOk result (λ v. canon (map value_tree v.items) ≡ canon (map value_tree values.items)) }
{
    if values.len() < values.capacity() {
        return Ok(values);
    }
    let mut values = Set::from_members(alloc, values)?.into_vec()?;
    values.reserve(values.len())?;
    Ok(values)
}

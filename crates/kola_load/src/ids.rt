//! The ids of the objects of each class, each found by halves.
ghost use Rattle.std.specs.Prelude.{◌≡◌, List, ℕ, OnOk, false, cond};
ghost use Rattle.std.specs.Str.{bytes_eq};
ghost use Rattle.std.specs.Ordering.{nat_cmp};
ghost use Rattle.std.specs.BTreeSet.{contains};
ghost use Rattle.kola_load.specs.Ids.{there};

use kola_core::{Memory, Name};
use std::alloc::Global;
use std::collections::{BTreeMap, BTreeSet};

// The ids of the objects of each class, by the class's name.
#[derive(Drop)]
pub(crate) struct Ids {
    by_class: BTreeMap<String, BTreeSet<u32>>,
}

impl Ids {
    // The table of no class.
    pub(crate) fn new(alloc: Global) -> Ids
        ensures { (r : List ℕ × ℕ) → there result r ≡ false }
    {
        Ids {
            by_class: BTreeMap::new(alloc),
        }
    }

    // Takes the ids of a class into the table, in place of those that it had.
    pub(crate) fn insert(
        &mut self,
        alloc: Global,
        class: &Name,
        ids: BTreeSet<u32>,
    ) -> Result<(), Memory>
        ensures { OnOk result ((r : List ℕ × ℕ) → there self.new r
            ≡ cond (bytes_eq class.now r.0) (contains nat_cmp ids r.1) (there self.old r)) }
    {
        let name = class.to_string(alloc)?;
        self.by_class.insert(name, ids)?;
        Ok(())
    }

    // Whether there is an object of the class and the id.
    pub(crate) fn holds(&self, class: &Name, id: u32) -> bool
        ensures { result ≡ there self.now (class.now, id) }
    {
        match self.by_class.get(class.as_text()) {
            Some(ids) => ids.contains(&id),
            None => false,
        }
    }
}

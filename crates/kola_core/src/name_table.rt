//! Lists of names, each found at its place in constant expected time.
ghost use Rattle.std.specs.Prelude.{◌≡◌, [], not, position, IfOk, OnErr};
ghost use Rattle.std.specs.Str.{bytes_eq};
ghost use Rattle.kola_core.specs.NameLists.{is_listed, with_name};

use crate::Memory;
use indexmap::IndexSet;
use std::alloc::Global;
use std::marker::Model;

/// A list of names without repeats, of which each is found at its place in constant expected time. Contracts see it as the list.
#[derive(Drop)]
pub struct NameTable {
    names: IndexSet<String>,
}

impl Model for NameTable {
    ghost use Rattle.std.specs.Prelude.{List, ℕ, map, string_bytes};

    ghost Value = { List (List ℕ) };

    ghost view = { λ a. map string_bytes a.names.keys };
}

impl NameTable {
    /// The table of no name.
    pub fn new(alloc: Global) -> NameTable
        ensures { result ≡ [] }
    {
        NameTable {
            names: IndexSet::new(alloc),
        }
    }

    /// Adds a copy of a name at the end, where it is not in the table, and says whether it did. Where memory is wanted, the table stays as
    /// it was.
    pub fn add(&mut self, name: &str) -> Result<bool, Memory>
        ensures new { IfOk result (λ b. b ≡ not (is_listed name.now self.old)) }
        ensures added { IfOk result (λ _. self.new ≡ with_name self.old name.now) }
        ensures err { OnErr result (self.new ≡ self.old) }
    {
        let text = String::from_str(*self.names.allocator(), name)?;
        let new = self.names.insert(text)?;
        Ok(new)
    }

    /// The place of a name, counted from 0; `None` where it is not in the table.
    pub fn place(&self, name: &str) -> Option<usize>
        ensures { result ≡ position (bytes_eq name.now) self.now }
    {
        self.names.get_index_of(name)
    }

    /// Whether a name is in the table.
    pub fn holds(&self, name: &str) -> bool
        ensures { result ≡ is_listed name.now self.now }
    {
        self.names.contains(name)
    }
}

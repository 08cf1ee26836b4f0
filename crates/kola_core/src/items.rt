//! A list, which contracts see as the list of its entries.
ghost use Rattle.std.specs.Prelude.{◌≡◌, [], ◌∷◌, ◌++◌, ◌<◌, ◌↔◌, length, slice_get, IsTrue, IfOk, OnOk, OnErr, OnSome};
ghost use Rattle.std.specs.Option.{option_copied};

use crate::{Duplicate, Memory};
use std::alloc::Global;
use std::marker::Model;

/// A `Vec` that contracts see as the list of its entries.
#[derive(Debug, Drop)]
pub struct Items<T> {
    entries: Vec<T>,
}

impl<T> Model for Items<T> {
    ghost use Rattle.std.specs.Prelude.{List};
    ghost use Rattle.std.specs.Coded.{coded_list};

    ghost Value = { List T };

    ghost coded = { coded_list T.code };

    ghost view = { λ it. it.entries.items };
}

impl<T> Items<T> {
    /// The empty list.
    pub fn new(alloc: Global) -> Items<T>
        ensures { result ≡ [] }
    {
        Items {
            entries: Vec::new(alloc),
        }
    }

    /// The list of the entries of a `Vec`, which takes no memory.
    pub fn from_vec(entries: Vec<T>) -> Items<T>
        ensures { result ≡ entries.items }
    {
        Items { entries }
    }

    /// The entries as a `Vec`, which takes no memory.
    pub fn into_vec(self) -> Vec<T>
        ensures { result.items ≡ self }
    {
        let Items { entries } = self;
        entries
    }

    /// The entries in their order.
    pub fn as_slice(&self) -> &[T]
        ensures { result.now ≡ self.now }
    {
        self.entries.as_slice()
    }

    /// The number of entries.
    pub fn len(&self) -> usize
        ensures { result ≡ length self.now }
    {
        self.entries.len()
    }

    /// Whether there is no entry.
    pub fn is_empty(&self) -> bool
        ensures { IsTrue result ↔ (self.now ≡ []) }
    {
        self.entries.is_empty()
    }

    /// The entry at place `n`, counted from 0; `None` past the end.
    pub fn get(&self, n: usize) -> Option<&T>
        ensures value { option_copied result ≡ slice_get self.now n }
        ensures within { OnSome result (n < length self.now) }
    {
        self.entries.get(n)
    }
}

impl<T: Drop> Items<T> {
    /// The list with an entry before the others.
    pub fn prefixed(self, entry: T) -> Result<Items<T>, Memory>
        ensures { IfOk result (λ it. it ≡ entry ∷ self) }
    {
        let Items { mut entries } = self;
        entries.insert(0, entry)?;
        Ok(Items { entries })
    }

    /// Adds an entry at the end. Where memory is wanted, the list stays as it was and the entry is dropped.
    pub fn push(&mut self, entry: T) -> Result<(), Memory>
        ensures ok { OnOk result (self.new ≡ self.old ++ entry ∷ []) }
        ensures err { OnErr result (self.new ≡ self.old) }
    {
        self.entries.push(entry)?;
        Ok(())
    }
}

impl<T: Duplicate> Items<T> {
    /// A copy of the list, entry by entry.
    pub fn copy(&self) -> Result<Items<T>, Memory>
        ensures { IfOk result (λ c. T.same_all c self.now) }
    {
        let mut entries = Vec::new(*self.entries.allocator());
        for entry in &self.entries {
            entries.push(entry.copy()?)?;
        }
        Ok(Items { entries })
    }
}

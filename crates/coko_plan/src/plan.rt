//! Plans: the entries that list a block, and the one with which they start.

ghost use Rattle.std.specs.Prelude.{◌≡◌, ◌<◌, ◌≤◌, List, [], ◌∷◌, map, length, slice_get, IfOk, IfSome, IfNone};
ghost use Rattle.std.specs.Option.{option_copied, option_map};
ghost use Rattle.kola_rule.specs.Rules.{RuleTree};
ghost use Rattle.coko_plan.specs.Wholes.{WSkip};
ghost use Rattle.coko_plan.specs.Entries.{ESkip, AllLower, stands_for, made, table};
ghost use Rattle.coko_plan.specs.EntryViews.{entry_tree, entry_at, entries_of, start_of};
ghost use Rattle.coko_plan.specs.Plans.{PlanFor};

use crate::entry::Entry;
use kola_core::Memory;
use std::alloc::Global;
use std::marker::Model;

/// A statement as numbered entries, the parts of each before it, and the number of the entry that is the whole.
/// Contracts see it as the entries and that number.
#[derive(Drop)]
pub struct Plan {
    entries: Vec<Entry>,
    start: usize,
}

impl Model for Plan {
    ghost use Rattle.std.specs.Prelude.{map, length, ◌<◌};
    ghost use base.Stored.{coded×, coded_ℕ};
    ghost use Rattle.std.specs.Coded.{coded_list};
    ghost use Rattle.coko_plan.specs.contracts.entry.Entry as entry;
    ghost use Rattle.coko_plan.specs.Entries.{AllLower};
    ghost use Rattle.coko_plan.specs.EntryViews.{entry_tree, PlanValue};

    ghost Value = { PlanValue };

    ghost coded = { coded× (coded_list entry.the_row.coded) coded_ℕ };

    ghost view = { λ a. (a.entries.items, a.start) };

    ghost invariant = { λ a. (a.start < length a.entries.items) × AllLower 0 (map entry_tree a.entries.items) };
}

impl Plan {
    /// The plan of these entries with this start.
    pub(crate) fn of_entries(entries: Vec<Entry>, start: usize) -> Plan
        requires start { start < length entries.items }
        requires lower { AllLower 0 (map entry_tree entries.items) }
        ensures { result ≡ (entries.items, start) }
    {
        Plan { entries, start }
    }

    /// What every plan keeps: it starts with an entry, and the parts of each entry have lower numbers. It does nothing
    /// else.
    pub fn well_formed(&self)
        ensures start { start_of self.now < length (entries_of self.now) }
        ensures lower { AllLower 0 (entries_of self.now) }
    {
        let _entries = &self.entries;
    }

    fn at(&self, n: usize) -> Option<&Entry>
        ensures { option_copied result ≡ slice_get self.now.0 n }
    {
        self.entries.get(n)
    }

    /// The entry of a number, counted from 0; `None` exactly past the last entry.
    pub fn entry(&self, n: usize) -> Option<&Entry>
        ensures value { option_map entry_at result ≡ slice_get (entries_of self.now) n }
        ensures stands { IfSome result (λ e. stands_for (entries_of self.now) n
            ≡ made (table (entries_of self.now)) (entry_tree e.now)) }
        ensures past { IfNone result (length (entries_of self.now) ≤ n) }
    {
        self.well_formed();
        self.at(n)
    }

    /// The number of the entry that is the whole.
    pub fn start(&self) -> usize
        ensures value { result ≡ start_of self.now }
        ensures within { result < length (entries_of self.now) }
    {
        self.start
    }

    /// The number of entries.
    pub fn len(&self) -> usize
        ensures { result ≡ length (entries_of self.now) }
    {
        self.entries.len()
    }
}

/// The plan of `SKIP`, which is one for every table.
pub fn skip_plan(alloc: Global) -> Result<Plan, Memory>
    ensures entries { IfOk result (λ p. entries_of p ≡ ESkip ∷ []) }
    ensures start { IfOk result (λ p. start_of p ≡ 0) }
    ensures stands { IfOk result (λ p. stands_for (entries_of p) (start_of p) ≡ WSkip) }
    ensures fits { IfOk result (λ p. (rules : List RuleTree) → PlanFor (entries_of p) (start_of p) rules) }
{
    let mut entries = Vec::new(alloc);
    entries.push(Entry::Skip)?;
    Ok(Plan::of_entries(entries, 0))
}

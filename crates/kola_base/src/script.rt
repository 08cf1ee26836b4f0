//! The calls of a source or a sink in memory that fail, by their numbers.
ghost use Rattle.std.specs.Prelude.{◌≡◌, ◌≤◌, ◌↔◌, IsTrue, Contains};
ghost use Rattle.kola_base.specs.Scripts.{counted, unplayed};

use crate::Failed;
use std::marker::Model;

/// Which calls fail, by their numbers from 1, with a count of the calls and one of the failures.
#[derive(Debug, Drop)]
pub struct Script {
    fails: Vec<u64>,
    calls: u64,
    faults: u64,
}

impl Model for Script {
    ghost use Rattle.kola_base.specs.Scripts.{Script};

    ghost Value = { Script };

    ghost view = { λ s. record { fails = s.fails.items; calls = s.calls; faults = s.faults } };
}

impl Script {
    /// Before the first call.
    pub fn new(fails: Vec<u64>) -> Script
        ensures { result ≡ unplayed fails.items }
    {
        Script {
            fails,
            calls: 0,
            faults: 0,
        }
    }

    /// Counts a call, and answers whether its number is one of those that fail.
    pub fn next_fails(&mut self) -> bool
        ensures named { IsTrue result ↔ Contains self.old.fails (counted self.old.calls) }
        ensures after { self.new ≡ record self.old { calls = counted self.old.calls } }
    {
        self.calls = self.calls.saturating_add(1);
        self.fails.contains(&self.calls)
    }

    /// Counts a failure.
    pub fn fail(&mut self) -> Failed
        ensures after { self.new ≡ record self.old { faults = counted self.old.faults } }
        ensures no_less { self.old.faults ≤ self.new.faults }
    {
        self.faults = self.faults.saturating_add(1);
        Failed
    }
}

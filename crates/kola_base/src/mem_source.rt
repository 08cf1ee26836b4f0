//! Sources over bytes in memory.
ghost use Rattle.std.specs.Prelude.{◌≡◌, ◌≤◌, ◌↔◌, Some, Ok, IsErr, is_err, IfOk, OnErr, Contains, ◌++◌, min, length, take, drop};
ghost use Rattle.kola_base.specs.Causes.{HasCause};
ghost use Rattle.kola_base.specs.Streams.{Reads};
ghost use Rattle.kola_base.specs.Scripts.{counted, unplayed, played, share};

use crate::script::Script;
use crate::{Failed, Source};
use std::marker::Model;

/// A source over bytes in memory that gives at most a piece of them a call, and never fails.
#[derive(Debug, Drop)]
pub struct SteadySource {
    bytes: Vec<u8>,
    at: usize,
    piece: usize,
}

impl Model for SteadySource {
    ghost use Rattle.std.specs.Prelude.{◌≤◌, length, drop};
    ghost use Rattle.kola_base.specs.Scripts.{Supply};

    ghost Value = { Supply };

    ghost view = { λ s. record { left = drop s.at s.bytes.items; piece = s.piece } };

    ghost invariant = { λ s. (s.at ≤ length s.bytes.items) × (1 ≤ s.piece) };
}

impl SteadySource {
    /// A source of these bytes.
    pub fn over(bytes: Vec<u8>, piece: usize) -> SteadySource
        requires { 1 ≤ piece }
        ensures { result ≡ record { left = bytes.items; piece = piece } }
    {
        SteadySource {
            bytes,
            at: 0,
            piece,
        }
    }
}

impl Source for SteadySource {
    ghost left = { λ s. Some s.left };

    ghost faults = { λ _. 0 };

    fn read(&mut self, buf: &mut [u8]) -> Result<usize, Failed>
        ensures ok { IfOk result (λ n. Reads (Some self.old.left) (Some self.new.left) buf.new n) }
        ensures err { OnErr result (self.new.left ≡ self.old.left) }
        ensures cause { HasCause 0 0 result }
        ensures gives { result ≡ Ok (share self.old (length buf.old)) }
        ensures piece { self.new.piece ≡ self.old.piece }
        ensures behind { IfOk result (λ n. drop n buf.new ≡ drop n buf.old) }
    {
        let count = copy_front(self.piece, &self.bytes[self.at..], buf);
        self.at += count;
        Ok(count)
    }
}

/// Copies as many bytes as a piece, the one and the other have, and answers how many.
fn copy_front(piece: usize, from: &[u8], to: &mut [u8]) -> usize
    ensures count { result ≡ min (min piece (length to.old)) (length from.now) }
    ensures copied { to.new ≡ take result from.now ++ drop result to.old }
{
    let count = piece.min(to.len()).min(from.len());
    to[..count].copy_from_slice(&from[..count]);
    count
}

/// A source over bytes in memory that gives at most a piece of them a call. Exactly the calls fail whose numbers, from 1,
/// it was told.
#[derive(Debug, Drop)]
pub struct MemSource {
    supply: SteadySource,
    script: Script,
}

impl Model for MemSource {
    ghost use Rattle.kola_base.specs.Scripts.{ScriptedSupply};

    ghost Value = { ScriptedSupply };

    ghost view = { λ s. record { supply = s.supply; script = s.script } };
}

impl MemSource {
    /// A source of these bytes, whose calls with the numbers in `fails` fail.
    pub fn over(bytes: Vec<u8>, piece: usize, fails: Vec<u64>) -> MemSource
        requires { 1 ≤ piece }
        ensures supply { result.supply ≡ record { left = bytes.items; piece = piece } }
        ensures script { result.script ≡ unplayed fails.items }
    {
        MemSource {
            supply: SteadySource::over(bytes, piece),
            script: Script::new(fails),
        }
    }
}

impl Source for MemSource {
    ghost left = { λ s. Some s.supply.left };

    ghost faults = { λ s. s.script.faults };

    fn read(&mut self, buf: &mut [u8]) -> Result<usize, Failed>
        ensures ok { IfOk result (λ n. Reads (Some self.old.supply.left) (Some self.new.supply.left) buf.new n) }
        ensures err { OnErr result (self.new.supply.left ≡ self.old.supply.left) }
        ensures cause { HasCause self.old.script.faults self.new.script.faults result }
        ensures failed { IsErr result ↔ Contains self.old.script.fails (counted self.old.script.calls) }
        ensures gives { IfOk result (λ n. n ≡ share self.old.supply (length buf.old)) }
        ensures piece { self.new.supply.piece ≡ self.old.supply.piece }
        ensures script { self.new.script ≡ played self.old.script (is_err result) }
        ensures behind { IfOk result (λ n. drop n buf.new ≡ drop n buf.old) }
    {
        if self.script.next_fails() {
            return Err(self.script.fail());
        }
        self.supply.read(buf)
    }
}

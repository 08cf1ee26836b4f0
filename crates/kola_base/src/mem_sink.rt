//! Sinks that keep bytes in memory, or none.
ghost use Rattle.std.specs.Prelude.{◌≡◌, ◌≤◌, ◌<◌, ◌⊎◌, ◌↔◌, None, Some, Ok, [], IsErr, is_err, IfOk, OnErr, Contains, length};
ghost use Rattle.kola_base.specs.Causes.{HasCause};
ghost use Rattle.kola_base.specs.Streams.{Writes};
ghost use Rattle.kola_base.specs.Scripts.{counted, unplayed, played, fitting};

use crate::script::Script;
use crate::{Failed, Sink};
use kola_core::Memory;
use std::alloc::Global;
use std::marker::Model;

/// A sink that keeps bytes in memory, up to a room, and takes at most a piece of them a call. Exactly the calls fail whose
/// numbers, from 1, it was told, and those with bytes that find the room used up.
#[derive(Debug, Drop)]
pub struct MemSink {
    bytes: Vec<u8>,
    room: usize,
    piece: usize,
    script: Script,
}

impl Model for MemSink {
    ghost use Rattle.std.specs.Prelude.{◌≤◌, vec_len, vec_capacity};
    ghost use Rattle.kola_base.specs.Scripts.{Store};

    ghost Value = { Store };

    ghost view = { λ s. record { written = s.bytes.items; room = s.room; piece = s.piece; script = s.script } };

    ghost invariant = { λ s. (vec_len s.bytes ≤ s.room) × (s.room ≤ vec_capacity s.bytes) × (1 ≤ s.piece) };
}

impl MemSink {
    /// A sink with this room, whose calls with the numbers in `fails` fail. It takes the memory for its room at once.
    pub fn over(
        alloc: Global,
        room: usize,
        piece: usize,
        fails: Vec<u64>,
    ) -> Result<MemSink, Memory>
        requires { 1 ≤ piece }
        ensures { IfOk result (λ sink. sink
            ≡ record { written = []; room = room; piece = piece; script = unplayed fails.items }) }
    {
        Ok(MemSink {
            bytes: Vec::with_capacity(alloc, room)?,
            room,
            piece,
            script: Script::new(fails),
        })
    }

    /// What was taken.
    pub fn bytes(&self) -> &[u8]
        ensures { result.now ≡ self.now.written }
    {
        &self.bytes
    }
}

impl Sink for MemSink {
    ghost written = { λ s. Some s.written };

    ghost faults = { λ s. s.script.faults };

    fn write(&mut self, piece: &[u8]) -> Result<usize, Failed>
        ensures ok { IfOk result (λ n. Writes (Some self.old.written) (Some self.new.written) piece.now n) }
        ensures err { OnErr result (self.new.written ≡ self.old.written) }
        ensures cause { HasCause self.old.script.faults self.new.script.faults result }
        ensures failed { IsErr result ↔ (Contains self.old.script.fails (counted self.old.script.calls)
            ⊎ ((0 < length piece.now) × (length self.old.written ≡ self.old.room))) }
        ensures takes { IfOk result (λ n. n ≡ fitting self.old (length piece.now)) }
        ensures room { self.new.room ≡ self.old.room }
        ensures piece { self.new.piece ≡ self.old.piece }
        ensures script { self.new.script ≡ played self.old.script (is_err result) }
    {
        if self.script.next_fails() || (!piece.is_empty() && self.bytes.len() == self.room) {
            return Err(self.script.fail());
        }
        let count = self
            .piece
            .min(piece.len())
            .min(self.room - self.bytes.len());
        self.bytes.extend_from_slice(&piece[..count]).unwrap();
        Ok(count)
    }
}

/// A sink that takes every piece whole and keeps nothing.
#[derive(Clone, Copy, Debug, Default)]
pub struct CountSink;

impl CountSink {
    /// The sink.
    pub fn new() -> CountSink
        ensures { result ≡ record {} }
    {
        CountSink
    }
}

impl Sink for CountSink {
    ghost written = { λ _. None };

    ghost faults = { λ _. 0 };

    fn write(&mut self, piece: &[u8]) -> Result<usize, Failed>
        ensures ok { IfOk result (λ n. Writes None None piece.now n) }
        ensures cause { HasCause 0 0 result }
        ensures whole { result ≡ Ok (length piece.now) }
    {
        Ok(piece.len())
    }
}

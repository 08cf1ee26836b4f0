//! Sources and sinks over std's readers and writers, of whose bytes nothing is known.
ghost use Rattle.std.specs.Prelude.{◌≡◌, None, IfOk, take};
ghost use Rattle.std.specs.Io.KnownBytes.{ReadConsumes, Appends};
ghost use Rattle.kola_base.specs.Causes.{HasCause};
ghost use Rattle.kola_base.specs.Streams.{Reads, Writes};

use crate::{Failed, Sink, Source};
use std::io::{Read, Write};
use std::marker::Model;

/// A source over a reader of std, which counts the reads that failed. It tells no bytes.
#[derive(Debug, Drop)]
pub struct StdSource<R> {
    input: R,
    faults: u64,
}

impl<R> Model for StdSource<R> {
    ghost use Rattle.kola_base.specs.Streams.{Watched};

    ghost Value = { Watched R };

    ghost view = { λ s. record { inner = s.input; faults = s.faults } };
}

impl<R: Read> StdSource<R> {
    /// A source over this reader, at which no read has failed.
    pub fn over(input: R) -> StdSource<R>
        ensures { result ≡ record { inner = input; faults = 0 } }
    {
        StdSource { input, faults: 0 }
    }
}

impl<R: Read> Source for StdSource<R> {
    ghost left = { λ _. None };

    ghost faults = { λ s. s.faults };

    fn read(&mut self, buf: &mut [u8]) -> Result<usize, Failed>
        ensures ok { IfOk result (λ n. Reads None None buf.new n) }
        ensures cause { HasCause self.old.faults self.new.faults result }
        // The bytes are the reader's own, as far as it says which they are.
        ensures bytes { ReadConsumes (R.remaining self.old.inner) (R.remaining self.new.inner) result buf.new }
    {
        match self.input.read(buf) {
            Ok(count) => Ok(count),
            Err(_) => {
                self.faults = self.faults.saturating_add(1);
                Err(Failed)
            }
        }
    }
}

/// A sink over a writer of std, which counts the writes that failed. It tells no bytes. Each write is flushed, and one
/// that takes no byte of a piece with any, or that cannot be flushed, has failed.
#[derive(Debug, Drop)]
pub struct StdSink<W> {
    output: W,
    faults: u64,
}

impl<W> Model for StdSink<W> {
    ghost use Rattle.kola_base.specs.Streams.{Watched};

    ghost Value = { Watched W };

    ghost view = { λ s. record { inner = s.output; faults = s.faults } };
}

impl<W: Write> StdSink<W> {
    /// A sink over this writer, at which no write has failed.
    pub fn over(output: W) -> StdSink<W>
        ensures { result ≡ record { inner = output; faults = 0 } }
    {
        StdSink { output, faults: 0 }
    }
}

impl<W: Write> Sink for StdSink<W> {
    ghost written = { λ _. None };

    ghost faults = { λ s. s.faults };

    fn write(&mut self, piece: &[u8]) -> Result<usize, Failed>
        ensures ok { IfOk result (λ n. Writes None None piece.now n) }
        ensures cause { HasCause self.old.faults self.new.faults result }
        // The writer got the bytes, as far as it says what it got.
        ensures bytes { IfOk result (λ n.
            Appends (W.contents self.old.inner) (W.contents self.new.inner) (take n piece.now)) }
    {
        if let Ok(count) = self.output.write(piece)
            && (count > 0 || piece.is_empty())
            && self.output.flush().is_ok()
        {
            return Ok(count);
        }
        self.faults = self.faults.saturating_add(1);
        Err(Failed)
    }
}

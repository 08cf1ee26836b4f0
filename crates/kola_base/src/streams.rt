//! Sources and sinks of bytes, which count their failures.
ghost use Rattle.std.specs.Prelude.{◌≡◌, ℕ, List, IfOk, OnErr};
ghost use Rattle.std.specs.declared.option.Option.{Option};
ghost use Rattle.kola_base.specs.Causes.{HasCause};
ghost use Rattle.kola_base.specs.Streams.{Reads, Writes};

/// A call of a source or a sink that failed.
#[derive(Clone, Copy, Debug, PartialEq, Eq)]
pub struct Failed;

/// Where bytes come from.
pub trait Source {
    /// The bytes that are left, where the source tells them. What is told stays told.
    ghost left: { Self → Option (List ℕ) };

    /// How many reads failed. The count never falls, and stays at the greatest value of 64 bits.
    ghost faults: { Self → ℕ };

    /// Puts bytes at the front of `buf` and answers how many. What stands behind them in `buf` is left open, as std's
    /// readers leave it.
    fn read(&mut self, buf: &mut [u8]) -> Result<usize, Failed>
        ensures ok { IfOk result (λ n. Reads (left self.old) (left self.new) buf.new n) }
        ensures err { OnErr result (left self.new ≡ left self.old) }
        ensures cause { HasCause (faults self.old) (faults self.new) result };
}

/// Where bytes go to.
pub trait Sink {
    /// The bytes that were taken, where the sink tells them. What is told stays told.
    ghost written: { Self → Option (List ℕ) };

    /// How many writes failed. The count never falls, and stays at the greatest value of 64 bits.
    ghost faults: { Self → ℕ };

    /// Takes bytes from the front of `piece` and answers how many.
    fn write(&mut self, piece: &[u8]) -> Result<usize, Failed>
        ensures ok { IfOk result (λ n. Writes (written self.old) (written self.new) piece.now n) }
        ensures err { OnErr result (written self.new ≡ written self.old) }
        ensures cause { HasCause (faults self.old) (faults self.new) result };
}

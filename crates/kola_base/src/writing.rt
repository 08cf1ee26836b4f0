//! Writing bytes to a sink.
ghost use Rattle.std.specs.Prelude.{◌≡◌, ◌<◌, length, take, IfErr, OnOk};
ghost use Rattle.std.specs.Io.KnownBytes.{append_known};
ghost use Rattle.kola_base.specs.Causes.{HasCause};

use crate::{Failed, Sink};

/// A write that failed, after so many bytes were taken.
#[derive(Clone, Copy, Debug, PartialEq, Eq)]
pub struct WriteFault {
    /// How many bytes the sink took before, from the front of those that were to be written.
    pub written: usize,
}

/// Writes all of the bytes. It takes no memory.
pub fn write_all<K: Sink>(sink: &mut K, bytes: &[u8]) -> Result<(), WriteFault>
    ensures cause { HasCause (K.faults sink.old) (K.faults sink.new) result }
    ensures ok { OnOk result (K.written sink.new ≡ append_known (K.written sink.old) bytes.now) }
    ensures err { IfErr result (λ fault.
        K.written sink.new ≡ append_known (K.written sink.old) (take fault.written bytes.now)) }
    ensures proper { IfErr result (λ fault. fault.written < length bytes.now) }
{
    let mut written = 0;
    while written < bytes.len() {
        match sink.write(&bytes[written..]) {
            Ok(count) => written += count,
            Err(Failed) => return Err(WriteFault { written }),
        }
    }
    Ok(())
}

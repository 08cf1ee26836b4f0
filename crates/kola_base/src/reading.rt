//! Reading a source to its end.
ghost use Rattle.std.specs.Prelude.{◌≡◌, ◌≢◌, ◌+◌, ◌<◌, ◌≤◌, length, take, drop, IfOk, IfSome, OnErr, IsErrOf, vec_len};
ghost use Rattle.kola_base.specs.Causes.{Rose, HasCause};
ghost use Rattle.kola_base.specs.Streams.{Reads};
ghost use Rattle.kola_base.specs.ReadToEnd.{Taking, AnswersTo};
ghost use Rattle.kola_base.specs.declared.reading.ReadAllFault.TheVariants.{Read, TooLong, Memory};

use crate::{Failed, Source};
use std::alloc::{AllocError, Global};

/// Why a source was not read to its end.
#[derive(Clone, Copy, Debug, PartialEq, Eq)]
pub enum ReadAllFault {
    /// A read failed.
    Read,
    /// There are more bytes than the limit.
    TooLong,
    /// Memory was wanted.
    Memory,
}

impl From<Failed> for ReadAllFault {
    ghost from_gives = { λ _ fault. fault ≡ Read };

    fn from(_: Failed) -> ReadAllFault {
        ReadAllFault::Read
    }
}

impl From<AllocError> for ReadAllFault {
    ghost from_gives = { λ _ fault. fault ≡ Memory };

    fn from(_: AllocError) -> ReadAllFault {
        ReadAllFault::Memory
    }
}

/// How many bytes are asked for in one read.
const CHUNK: usize = 64 * 1024;

/// The bytes of a source up to its end, where they are no more than `limit`. Otherwise it takes one byte past the limit.
/// The first read that fails ends it.
pub fn read_all<S: Source>(
    alloc: Global,
    source: &mut S,
    limit: usize,
) -> Result<Vec<u8>, ReadAllFault>
    requires { limit < usize.MAX }

    ensures no_less { S.faults source.old ≤ S.faults source.new }
    ensures read { IsErrOf result ReadAllFault.Read → Rose (S.faults source.old) (S.faults source.new) }

    // Whatever it answers, a told source lost exactly the bytes that were taken.
    ensures taken { Taking limit (S.left source.old) (S.left source.new) result }

    // Where no read fails and memory is found, it answers all bytes, or that they are too many.
    ensures whole { IfSome (S.left source.old) (λ left. AnswersTo limit left result) }
{
    let mut bytes = Vec::new(alloc);
    let mut filled = 0;
    while filled <= limit {
        let count = read_more(source, &mut bytes, filled, limit)?;
        if count == 0 {
            bytes.truncate(filled);
            return Ok(bytes);
        }
        filled += count;
    }
    Err(ReadAllFault::TooLong)
}

/// One read behind the first `filled` bytes, up to one byte past the limit. What stood behind them was room for a read.
fn read_more<S: Source>(
    source: &mut S,
    bytes: &mut Vec<u8>,
    filled: usize,
    limit: usize,
) -> Result<usize, ReadAllFault>
    requires within { filled ≤ limit }
    requires bounded { limit < usize.MAX }
    requires filled { filled ≤ vec_len bytes.old }

    ensures front { take filled bytes.new.items ≡ take filled bytes.old.items }
    ensures long { filled ≤ vec_len bytes.new }
    ensures short { IfOk result (λ n. vec_len bytes.new ≤ limit + 1) }
    ensures ok { IfOk result (λ n. Reads (S.left source.old) (S.left source.new) (drop filled bytes.new.items) n) }
    ensures room { IfOk result (λ n. filled < vec_len bytes.new) }
    ensures err { OnErr result (S.left source.new ≡ S.left source.old) }
    ensures no_less { S.faults source.old ≤ S.faults source.new }
    ensures read { IsErrOf result ReadAllFault.Read → Rose (S.faults source.old) (S.faults source.new) }
    ensures not_too_long { result ≢ Err ReadAllFault.TooLong }
{
    bytes.resize(filled + CHUNK.min(limit + 1 - filled), 0)?;
    Ok(read_at(source, bytes.as_mut_slice(), filled)?)
}

fn read_at<S: Source>(source: &mut S, bytes: &mut [u8], at: usize) -> Result<usize, Failed>
    requires { at ≤ length bytes.old }
    ensures front { take at bytes.new ≡ take at bytes.old }
    ensures ok { IfOk result (λ n. Reads (S.left source.old) (S.left source.new) (drop at bytes.new) n) }
    ensures err { OnErr result (S.left source.new ≡ S.left source.old) }
    ensures cause { HasCause (S.faults source.old) (S.faults source.new) result }
{
    source.read(&mut bytes[at..])
}

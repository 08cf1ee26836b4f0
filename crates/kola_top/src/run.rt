//! The top call.

ghost use Rattle.std.specs.Prelude.{◌≡◌, ◌⊎◌, ℕ, List, map, IfSome, IsTrue};
ghost use Rattle.std.specs.Io.KnownBytes.{IsAtEnd};
ghost use Rattle.std.specs.String.{string_bytes};
ghost use Rattle.kola_base.specs.Causes.{Rose};
ghost use Rattle.kola_top.specs.Answer.{Answer};
ghost use Rattle.kola_top.specs.Runs.{AnswersUsage, Tells, Completes, Sent, is_written};
ghost use Rattle.kola_top.specs.declared.status.Status.{Status};

use crate::answer::{Reply, answer_to};
use crate::output::{too_long_line, usage_line};
use crate::status::Status;
use crate::words::action_of;
use kola_base::{ReadAllFault, Sink, Source, read_all, write_all};
use std::alloc::{AllocError, Global};

/// The greatest length of a job, in bytes.
const GREATEST_LENGTH: usize = 16_777_216;

/// Writes the bytes of an answer that has this status.
fn write_answer<K: Sink>(sink: &mut K, status: Status, bytes: &[u8]) -> Status
    requires { IsTrue (is_written status) }
    ensures { Sent status bytes.now (K.written sink.old) (K.written sink.new) (K.faults sink.old)
        (K.faults sink.new) result }
{
    match write_all(sink, bytes) {
        Ok(()) => status,
        Err(_) => Status::WriteFault,
    }
}

/// Does all that the program does: it reads the job that the words ask for, answers it, and says how it ended.
///
/// The refusals come in the order words, reading, length, layout, a missing section, the schema's text, the text of the rules, the rules
/// with their proofs; behind them, where the action asks a query, the query's text and the size of its term, the database's text, the
/// visits; writing comes last. The whole answer is built before the first byte is written. Each answer has its cause: see
/// `answers_have_causes`.
pub fn run_kola<S: Source, K: Sink>(
    alloc: Global,
    words: &[String],
    source: &mut S,
    sink: &mut K,
) -> Status
    // The usage line is answered exactly where the words are no command, and then nothing is read.
    ensures usage { AnswersUsage (map string_bytes words.now) source.old source.new result }

    // A failure of the source or the sink is answered only where its count rose in this call.
    ensures read_fault { result ≡ Status.ReadFault → Rose (S.faults source.old) (S.faults source.new) }
    ensures write_fault { result ≡ Status.WriteFault → Rose (K.faults sink.old) (K.faults sink.new) }

    // Nothing is written where the job could not be read or memory was wanted.
    ensures silent { (result ≡ Status.ReadFault) ⊎ (result ≡ Status.Memory) → K.written sink.new ≡ K.written sink.old }

    // Of a source that tells its bytes: the status and the bytes that were written are those of the answer to the job.
    ensures answer { IfSome (S.left source.old) (λ job.
        Tells (map string_bytes words.now) job (K.written sink.old) (K.written sink.new) result) }

    // Of a source that tells its bytes: the job's answer is given, or memory was wanted, or a count rose in this call.
    ensures complete { IfSome (S.left source.old) (λ job. (status : Status) (bytes : List ℕ) →
        Answer (map string_bytes words.now) job status bytes →
        Completes status (S.faults source.old) (S.faults source.new) (K.faults sink.old) (K.faults sink.new) result) }

    // A report was written of the whole job: a source that tells its bytes has none left.
    ensures to_the_end { result ≡ Status.Ok → IsAtEnd (S.left source.new) }
{
    let Some(action) = action_of(words) else {
        return write_answer(sink, Status::Usage, usage_line());
    };
    match read_all(alloc, source, GREATEST_LENGTH) {
        Ok(job) => match answer_to(alloc, action, &job) {
            Ok(Reply { status, bytes }) => write_answer(sink, status, &bytes),
            Err(AllocError) => Status::Memory,
        },
        Err(ReadAllFault::TooLong) => write_answer(sink, Status::TooLong, too_long_line()),
        Err(ReadAllFault::Read) => Status::ReadFault,
        Err(ReadAllFault::Memory) => Status::Memory,
    }
}

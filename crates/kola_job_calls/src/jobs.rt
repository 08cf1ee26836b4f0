//! Whole jobs: that memory is found, the bytes that are written, and that no failure is tried again.

use kola_base::{MemSink, MemSource, SteadySource};
use kola_top::{Status, run_kola};
use std::alloc::{AllocError, Global};
use std::test::Fail;

const JOB: &str = "%% query\nselect distinct x from x in set(3, 1, 2, 3) where x < 3";

const REPORT: &str = "query: (iter((lt @ <snd, K(3)>), snd) o <id, K({1, 2, 3})>)\n\
block: -\n\
plan: (iter((lt @ <snd, K(3)>), snd) o <id, K({1, 2, 3})>)\n\
outcome: done\n\
ok: true\n\
firings: 0\n\
steps: 1\n\
visits: 3\n\
result: {1, 2}\n";

fn word(alloc: Global, word: &str) -> Result<Vec<String>, AllocError> {
    Ok(vec![in alloc; format!(in alloc; "{word}")?]?)
}

/// A sink that takes all.
fn sink(alloc: Global) -> Result<MemSink, AllocError> {
    MemSink::over(alloc, 4_096, 4_096, Vec::new(alloc))
}

/// Whether a sink has these bytes.
fn has_taken(sink: &MemSink, written: &str) -> bool {
    sink.bytes() == written.as_bytes()
}

/// The status of a job with one word, where no read fails.
fn run(
    alloc: Global,
    action: &str,
    job: Vec<u8>,
    sink: &mut MemSink,
) -> Result<Status, AllocError> {
    let words = word(alloc, action)?;
    let mut source = SteadySource::over(job, 65_536);
    Ok(run_kola(alloc, &words, &mut source, sink))
}

/// Whether a job has this status and these bytes as its answer, where nothing fails.
fn is_answered(
    alloc: Global,
    action: &str,
    job: Vec<u8>,
    due: Status,
    written: &str,
) -> Result<bool, AllocError> {
    let mut sink = sink(alloc)?;
    let status = run(alloc, action, job, &mut sink)?;
    Ok(status == due && has_taken(&sink, written))
}

/// The same of a text.
fn is_told(
    alloc: Global,
    action: &str,
    job: &str,
    due: Status,
    written: &str,
) -> Result<bool, AllocError> {
    is_answered(alloc, action, job.as_bytes().to_vec(alloc)?, due, written)
}

/// The status where the read of this number fails; each read gives one byte.
fn run_with_failing_read(
    alloc: Global,
    fail: u64,
    sink: &mut MemSink,
) -> Result<Status, AllocError> {
    let words = word(alloc, "run")?;
    let fails = vec![in alloc; fail]?;
    let bytes = JOB.as_bytes().to_vec(alloc)?;
    let mut source = MemSource::over(bytes, 1, fails);
    Ok(run_kola(alloc, &words, &mut source, sink))
}

/// Whether the status and what is written are so, where the read of this number fails.
fn ends_at_read(alloc: Global, fail: u64, due: Status, written: &str) -> Result<bool, AllocError> {
    let mut sink = sink(alloc)?;
    let status = run_with_failing_read(alloc, fail, &mut sink)?;
    Ok(status == due && has_taken(&sink, written))
}

/// Pairs of numbers, the first of each below the second, as structs.
const TWO_RANGES: &str = "%% query
select distinct struct(low: x, high: y) from x in set(3, 1, 2), y in set(2, 1, 2) where x < y";

const TWO_RANGES_REPORT: &str = "query: \
(flat o (iter(KP(true), (iter((lt @ <(snd o fst), snd>), <(snd o fst), snd>) o <id, K({1, 2})>)) o <id, K({1, 2, 3})>))\n\
block: -\n\
plan: \
(flat o (iter(KP(true), (iter((lt @ <(snd o fst), snd>), <(snd o fst), snd>) o <id, K({1, 2})>)) o <id, K({1, 2, 3})>))\n\
outcome: done\n\
ok: true\n\
firings: 0\n\
steps: 1\n\
visits: 11\n\
result: {struct(low: 1, high: 2)}\n";

/// The words, the job, its status and what is written.
const REPORTS: &[(&str, &str, Status, &str)] = &[
    ("run", JOB, Status::Ok, REPORT),
    ("run", TWO_RANGES, Status::Ok, TWO_RANGES_REPORT),
    (
        "check",
        "%% rules\nrule r (f: a -> b) at a: (id o f) = f proof (id o f) = f by id_left at here qed\n",
        Status::Ok,
        "rule r ok\nrules: 1\nblocks: 0\n",
    ),
    ("check", "%% rules\n", Status::Ok, "rules: 0\nblocks: 0\n"),
    (
        "translate",
        JOB,
        Status::Ok,
        "query: (iter((lt @ <snd, K(3)>), snd) o <id, K({1, 2, 3})>)\ntype: set<int>\n",
    ),
    (
        "translate",
        "%% rules\nno rules\n%% query\nstruct(a: 1, b: \"x\").b",
        Status::Ok,
        "query: (snd o <K(1), K(\"x\")>)\ntype: string\n",
    ),
    (
        "translate",
        "%% query\n1 in 2",
        Status::Query,
        "fault: query at 2: NotASet\n",
    ),
    (
        "run",
        "%% rules\nrule r (f: a -> b) at a: (id o f) = f proof f qed\n%% query\n1 in 2",
        Status::Rules,
        "fault: rule r step 0: FirstIsNotLeft\n",
    ),
];

#[test]
fn each_action_has_its_report(rt: HostRuntime) -> Result<(), Fail> {
    for (action, job, status, written) in REPORTS {
        assert!(rt; is_told(rt.alloc(), action, job, *status, written)?);
    }
    Ok(())
}

#[test]
fn the_first_failing_read_ends_the_call_and_nothing_is_written(
    rt: HostRuntime,
) -> Result<(), Fail> {
    // As many reads as there are bytes give one each, and one more finds the end.
    let reads = JOB.len() as u64 + 1;
    for fail in 1..reads + 1 {
        assert!(rt; ends_at_read(rt.alloc(), fail, Status::ReadFault, "")?);
    }
    assert!(rt; ends_at_read(rt.alloc(), reads + 1, Status::Ok, REPORT)?);
    Ok(())
}

/// A sink that takes seven bytes at a time, of which the write of this number fails.
fn failing_sink(alloc: Global, fail: u64) -> Result<MemSink, AllocError> {
    let fails = vec![in alloc; fail]?;
    MemSink::over(alloc, 4_096, 7, fails)
}

/// Whether a sink has so many bytes of the report.
fn has_front(sink: &MemSink, taken: usize) -> bool {
    sink.bytes().len() == taken && REPORT.as_bytes().starts_with(sink.bytes())
}

/// The status of the job.
fn run_sample(alloc: Global, sink: &mut MemSink) -> Result<Status, AllocError> {
    run(alloc, "run", JOB.as_bytes().to_vec(alloc)?, sink)
}

/// Whether the status is so and so many bytes of the report are written, where the write of this number fails.
fn ends_at_write(alloc: Global, fail: u64, due: Status, taken: usize) -> Result<bool, AllocError> {
    let mut sink = failing_sink(alloc, fail)?;
    let status = run_sample(alloc, &mut sink)?;
    Ok(status == due && has_front(&sink, taken))
}

#[test]
fn a_failing_write_leaves_what_was_taken_before_it(rt: HostRuntime) -> Result<(), Fail> {
    // The report is written in 28 pieces.
    for before in 0..28u8 {
        let fail = u64::from(before) + 1;
        let taken = 7 * usize::from(before);
        assert!(rt; ends_at_write(rt.alloc(), fail, Status::WriteFault, taken)?);
    }
    assert!(rt; ends_at_write(rt.alloc(), 29, Status::Ok, REPORT.len())?);
    Ok(())
}

/// Whether so many blanks have this answer.
fn are_blanks_answered(
    alloc: Global,
    count: usize,
    due: Status,
    line: &str,
) -> Result<bool, AllocError> {
    is_answered(alloc, "run", vec![in alloc; b' '; count]?, due, line)
}

#[test]
fn a_job_of_the_greatest_length_is_read(rt: HostRuntime) -> Result<(), Fail> {
    let line = "fault: layout line 2: SectionMissing query\n";
    assert!(rt; are_blanks_answered(rt.alloc(), 16_777_216, Status::Layout, line)?);
    Ok(())
}

#[test]
fn a_longer_job_is_refused(rt: HostRuntime) -> Result<(), Fail> {
    let line = "fault: job too long\n";
    assert!(rt; are_blanks_answered(rt.alloc(), 16_777_217, Status::TooLong, line)?);
    Ok(())
}

const USAGE: &str =
    "usage: kola check|translate|plan|optimize|run|gen [NUMBER] [--block NAME] [--budget N] [--visits N]\n";

#[test]
fn a_word_that_is_no_action_has_the_line_of_usage(rt: HostRuntime) -> Result<(), Fail> {
    assert!(rt; is_told(rt.alloc(), "fly", JOB, Status::Usage, USAGE)?);
    Ok(())
}

/// Jobs whose sections are at fault, each with its line.
const LAYOUTS: [(&str, &str); 4] = [
    ("x", "fault: layout line 1: TextBefore\n"),
    ("%% other\n", "fault: layout line 1: UnknownSection\n"),
    (
        "%% query\n%% query\n",
        "fault: layout line 2: SectionOutOfOrder\n",
    ),
    ("", "fault: layout line 1: SectionMissing query\n"),
];

#[test]
fn each_fault_of_sections_has_its_line(rt: HostRuntime) -> Result<(), Fail> {
    for (job, line) in LAYOUTS {
        assert!(rt; is_told(rt.alloc(), "run", job, Status::Layout, line)?);
    }
    Ok(())
}

/// Whether a query has this line as its answer.
fn is_query_refused(alloc: Global, query: &str, line: &str) -> Result<bool, AllocError> {
    let job = format!(in alloc; "%% query\n{query}")?;
    is_told(alloc, "run", job.as_str(), Status::Query, line)
}

/// Queries that are refused, each with its line.
const QUERIES: [(&str, &str); 6] = [
    (
        "select x from x in set(1)",
        "fault: query at 7: NotInProfile select\n",
    ),
    (
        "select distinct y from x in set(1) where x < 3",
        "fault: query at 16: UnknownName\n",
    ),
    (
        "select distinct x from x in set(9223372036854775808) where x < 3",
        "fault: query at 32: NumberTooLarge\n",
    ),
    (
        "select distinct x from x in set(1) where x <",
        "fault: query at 44: Unexpected\n",
    ),
    (
        "select distinct Count from x in set(1)",
        "fault: query at 16: NotInProfile Count\n",
    ),
    (
        "((((((((((((((((((((((((((((((((((((((((((((((((((((((((((((\
         (((((((((((((((((((((((((((((((((((((((((1",
        "fault: query at 100: TooDeep\n",
    ),
];

#[test]
fn each_refused_query_has_its_line(rt: HostRuntime) -> Result<(), Fail> {
    for (query, line) in QUERIES {
        assert!(rt; is_query_refused(rt.alloc(), query, line)?);
    }
    Ok(())
}

const SCHEMA: &str = "%% schema
class Person (extent Persons, key ssn, key (first, last)) {
  attribute string ssn;
  attribute string first;
  attribute string last;
  attribute set<Vehicle> cars;
};
class Vehicle (extent Vehicles) { attribute int year; };
";

const DATABASE: &str = "%% database
{\"Persons\":[{\"#\":1,\"ssn\":\"a\",\"first\":\"Ann\",\"last\":\"Lee\",\"cars\":[1]},
            {\"#\":2,\"ssn\":\"b\",\"first\":\"Bob\",\"last\":\"Lee\",\"cars\":[1,1]}],
 \"Vehicles\":[{\"#\":1,\"year\":1990},{\"#\":2,\"year\":2001}]}
";

/// A job with a schema, a database and a query.
fn whole_job(alloc: Global) -> Result<String, AllocError> {
    format!(in alloc; "{SCHEMA}{DATABASE}{JOB}")
}

/// The bytes with a carriage return before each line feed.
fn with_returns(alloc: Global, text: &str) -> Result<Vec<u8>, AllocError> {
    let mut out = Vec::new(alloc);
    for byte in text.as_bytes() {
        if *byte == b'\n' {
            out.push(b'\r')?;
        }
        out.push(*byte)?;
    }
    Ok(out)
}

#[test]
fn line_ends_change_no_answer(rt: HostRuntime) -> Result<(), Fail> {
    let job = whole_job(rt.alloc())?;
    let job = with_returns(rt.alloc(), &job)?;
    assert!(rt; is_answered(rt.alloc(), "run", job, Status::Ok, REPORT)?);
    Ok(())
}

/// The status of the first bytes of a job.
fn status_of(alloc: Global, job: &str, bytes: usize) -> Result<Status, AllocError> {
    let mut front = Vec::new(alloc);
    for byte in job.as_bytes().iter().take(bytes) {
        front.push(*byte)?;
    }
    let mut sink = sink(alloc)?;
    run(alloc, "run", front, &mut sink)
}

#[test]
fn each_front_of_a_job_is_answered(rt: HostRuntime) -> Result<(), Fail> {
    let job = whole_job(rt.alloc())?;
    let bytes = job.len();
    for left in 0..bytes {
        let status = status_of(rt.alloc(), &job, bytes - left)?;
        // Without the 11 or 12 bytes of its condition it is a query too; its header is whole up to 56 bytes before the end.
        let due = match left {
            0 | 11 | 12 => Status::Ok,
            1..=56 => Status::Query,
            _ => Status::Layout,
        };
        assert_eq!(rt; status, due);
    }
    Ok(())
}

/// Whether these sections before the query have this answer.
fn is_refused(alloc: Global, sections: &str, due: Status, line: &str) -> Result<bool, AllocError> {
    let job = format!(in alloc; "{sections}{JOB}")?;
    is_told(alloc, "run", job.as_str(), due, line)
}

/// Schemas and databases that are at fault, each with its line.
const SECTIONS: [(&str, Status, &str); 5] = [
    (
        "%% schema\nclass Car (extent Cars) { attribute wheel w; };\n",
        Status::Schema,
        "fault: schema at 36: UnknownClass\n",
    ),
    (
        "%% schema\nclass Car (extent Cars)\n",
        Status::Schema,
        "fault: schema at 24: Unexpected\n",
    ),
    (
        "%% database\n[]\n",
        Status::Database,
        "fault: database: NotObject\n",
    ),
    (
        "%% database\n{\"C\\n\":[]}\n",
        Status::Database,
        "fault: database: UnknownExtent \"C\\n\"\n",
    ),
    (
        "%% schema\nclass Car (extent Cars, key w) { attribute int w; };\n%% database\n{\"Cars\":[{\"#\":7,\"w\":1},{\"#\":3,\"w\":1}]}\n",
        Status::Database,
        "fault: database: KeyRepeats Car 1 7 3\n",
    ),
];

#[test]
fn faults_of_schemas_and_databases_have_their_lines(rt: HostRuntime) -> Result<(), Fail> {
    for (sections, due, line) in SECTIONS {
        assert!(rt; is_refused(rt.alloc(), sections, due, line)?);
    }
    Ok(())
}

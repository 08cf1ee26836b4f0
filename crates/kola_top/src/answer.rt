//! The answer to a job that was read: its status and the bytes that are written.

ghost use Rattle.std.specs.Prelude.{◌≡◌, ◌≤◌, ◌<◌, ℕ, List, IfOk, IfErr, IfSome, IsTrue, Some, true, length};
ghost use Rattle.kola_load.specs.Loaded.{IsLoaded};
ghost use Rattle.kola_top.specs.Stages.{text_in, rules_read, greatest_length};
ghost use Rattle.kola_top.specs.Answer.{Answer, is_memory, unchanged_report};
ghost use Rattle.kola_top.specs.StageLine.{at_place, at_schema, at_database, FromQueryText, FromDatabase, OnItsWay};
ghost use Rattle.kola_top.specs.Refusals.{Passes, Refuses, IsOf, Replies, is_told, status_of, line_of};
ghost use Rattle.kola_top.specs.Report.{report_text};
ghost use Rattle.kola_top.specs.Runs.{is_written};
ghost use Rattle.kola_top.specs.Words.{action_of};

use crate::asked::{ask, translate_report};
use crate::layout::sections;
use crate::output::{Report, report_text};
use crate::refusal::Refusal;
use crate::rules::{accept, check_report, drafts_of};
use crate::section::{Sections, Span};
use crate::status::Status;
use crate::valued::evaluated;
use crate::words::Action;
use kola_core::Memory;
use kola_database::Db;
use kola_load::{DbFault, read_db, read_schema};
use kola_schema::Schema;
use std::alloc::Global;

/// The status of an answer and the bytes that are written.
#[derive(Drop)]
pub struct Reply {
    pub status: Status,
    pub bytes: Vec<u8>,
}

/// The report where no block is named.
fn unchanged_report(
    alloc: Global,
    query: &[u8],
    visits: u64,
    outcome: &[u8],
) -> Result<Vec<u8>, Memory>
    ensures { IfOk result (λ bytes. bytes.items ≡ report_text (unchanged_report query.now visits outcome.now)) }
{
    report_text(
        alloc,
        &Report {
            query,
            block: b"-",
            plan: query,
            outcome: b"done",
            ok: true,
            firings: 0,
            steps: 1,
            visits,
            result: outcome,
        },
    )
}

/// The text of a section; one that is absent is empty.
fn text_in<'a>(job: &'a [u8], place: Option<Span>) -> &'a [u8]
    requires { IfSome place (λ p. (p.from ≤ p.to) × (p.to ≤ length job.now)) }
    ensures { result.now ≡ text_in job.now place }
{
    match place {
        None => &[],
        Some(span) => &job[span.from..span.to],
    }
}

/// Where the text of the section lies that an action needs.
fn needed_place(action: Action, found: &Sections) -> Result<Span, Refusal>
    requires { found.now.lines < u64.MAX }
    ensures { Passes (at_place action found.now) (λ p. p) result }
{
    let section = action.needs();
    match found.place_of(section) {
        Some(place) => Ok(place),
        None => Err(Refusal::Missing(found.lines + 1, section)),
    }
}

/// The schema that a text writes.
fn schema_of(alloc: Global, text: &[u8]) -> Result<Box<Schema>, Refusal>
    ensures { Passes (at_schema text.now) (λ s. s.value) result }
{
    let schema = read_schema(alloc, text)?;
    let schema = Box::new(alloc, schema)?;
    Ok(schema)
}

fn is_memory(fault: &DbFault) -> bool
    ensures { result ≡ is_memory fault.now }
{
    matches!(fault, DbFault::Memory)
}

/// The database that a text writes.
fn database_of(alloc: Global, schema: &Schema, text: &[u8]) -> Result<Box<Db>, Refusal>
    ensures loaded { IfOk result (λ db. IsLoaded schema.now text.now db.value) }
    ensures refused { IfErr result (Refuses (IsOf (at_database schema.now text.now))) }
{
    match read_db(alloc, schema, text) {
        Ok(database) => {
            let database = Box::new(alloc, database)?;
            Ok(database)
        }
        Err(fault) if is_memory(&fault) => Err(Refusal::Memory),
        Err(fault) => Err(Refusal::Database(fault)),
    }
}

/// What `run` reports on a query's text and the text of the database, or the first refusal behind the rules.
fn run_report(
    alloc: Global,
    schema: &Schema,
    text: &[u8],
    database: &[u8],
) -> Result<Vec<u8>, Refusal>
    ensures { Replies (λ v. v.items) (FromQueryText text.now schema.now
        (λ q _. FromDatabase database.now schema.now q)) result }
{
    let asked = ask(alloc, schema, text)?;
    let db = database_of(alloc, schema, database)?;
    let valued = evaluated(alloc, schema, &db, &asked)?;
    let query = asked.term_text(alloc)?;
    let bytes = unchanged_report(alloc, &query, valued.visits, &valued.text)?;
    Ok(bytes)
}

/// The text of the rules as an action reads it.
fn rules_read<'a>(action: Action, job: &'a [u8], found: &Sections) -> &'a [u8]
    requires { IfSome found.now.rules (λ p. (p.from ≤ p.to) × (p.to ≤ length job.now)) }
    ensures { result.now ≡ rules_read action job.now found.now }
{
    match action {
        Action::Translate => &[],
        Action::Check | Action::Run => text_in(job, found.rules),
    }
}

/// The report on a job of no more than the greatest length, or the first refusal on its way: a line for each stage.
fn report_of(alloc: Global, action: Action, job: &[u8]) -> Result<Vec<u8>, Refusal>
    requires { length job.now ≤ greatest_length }
    ensures { Replies (λ v. v.items) (OnItsWay action job.now) result }
{
    let found = sections(job)?;
    let place = needed_place(action, &found)?;
    let schema = schema_of(alloc, text_in(job, found.schema))?;
    let drafts = drafts_of(alloc, rules_read(action, job, &found))?;
    let book = accept(alloc, schema, drafts)?;
    let needed = text_in(job, Some(place));
    match action {
        Action::Check => Ok(check_report(alloc, &book)?),
        Action::Translate => translate_report(alloc, book.schema(), needed),
        Action::Run => run_report(alloc, book.schema(), needed, text_in(job, found.database)),
    }
}

/// The answer of a refusal that is told by a line.
fn refused(alloc: Global, refusal: &Refusal) -> Result<Reply, Memory>
    ensures told { IfOk result (λ reply. is_told refusal.now ≡ true) }
    ensures status { IfOk result (λ reply. reply.status ≡ status_of refusal.now) }
    ensures line { IfOk result (λ reply. reply.bytes.items ≡ line_of refusal.now) }
{
    let bytes = refusal.line(alloc)?;
    Ok(Reply {
        status: refusal.status(),
        bytes,
    })
}

/// The answer to a job of no more than the greatest length.
pub fn answer_to(alloc: Global, action: Action, job: &[u8]) -> Result<Reply, Memory>
    requires { length job.now ≤ greatest_length }
    ensures answer { IfOk result (λ reply. (words : List (List ℕ)) → action_of words ≡ Some action →
        Answer words job.now reply.status reply.bytes.items) }
    ensures written { IfOk result (λ reply. IsTrue (is_written reply.status)) }
{
    match report_of(alloc, action, job) {
        Ok(bytes) => Ok(Reply {
            status: Status::Ok,
            bytes,
        }),
        Err(refusal) => refused(alloc, &refusal),
    }
}

//! The bytes that are written: the report, and the line of each refusal.

ghost use Rattle.std.specs.Prelude.{◌≡◌, ◌++◌, ◌<◌, IfOk, OnOk};
ghost use Rattle.std.specs.String.{string_bytes};
ghost use Rattle.std.specs.Fmt.{decimal};
ghost use Rattle.kola_top.specs.Report.{report_line, report_text, truth_text};
ghost use Rattle.kola_top.specs.FaultLines.{usage_line, too_long_line, layout_cause, layout_line, layout_fault_line, missing_line, query_line};
ghost use Rattle.kola_top.specs.ReportViews.{report_view};

use crate::layout::{LayoutFault, LayoutWhy};
use crate::section::Section;
use std::alloc::{AllocError, Global};

/// What is written where the words are no command.
pub fn usage_line() -> &'static [u8]
    ensures { result.now ≡ usage_line }
{
    b"usage: kola check|translate|plan|optimize|run|gen [NUMBER] [--block NAME] [--budget N] [--visits N]\n"
}

/// What is written where the job is too long.
pub fn too_long_line() -> &'static [u8]
    ensures { result.now ≡ too_long_line }
{
    b"fault: job too long\n"
}

/// What `run` reports. The query, the plan and the result are their texts.
#[derive(Drop)]
pub struct Report<'a> {
    pub query: &'a [u8],
    pub block: &'a [u8],
    pub plan: &'a [u8],
    pub outcome: &'a [u8],
    pub ok: bool,
    pub firings: u64,
    pub steps: u64,
    pub visits: u64,
    pub result: &'a [u8],
}

fn cause_of(why: LayoutWhy) -> &'static str
    ensures { result.now ≡ layout_cause why }
{
    match why {
        LayoutWhy::TextBefore => "TextBefore",
        LayoutWhy::UnknownSection => "UnknownSection",
        LayoutWhy::SectionOutOfOrder => "SectionOutOfOrder",
    }
}

/// The line of a fault of the layout.
pub fn layout_fault_line(alloc: Global, fault: LayoutFault) -> Result<String, AllocError>
    ensures { IfOk result (λ s. string_bytes s ≡ layout_fault_line fault) }
{
    let line = fault.line;
    let cause = cause_of(fault.why);
    format!(in alloc; "fault: layout line {line}: {cause}\n")
}

/// The line of a section that is missing, and would stand in this line of the job.
pub fn missing_line(alloc: Global, line: u64, section: Section) -> Result<String, AllocError>
    ensures { IfOk result (λ s. string_bytes s ≡ missing_line line section) }
{
    let section = section.name();
    format!(in alloc; "fault: layout line {line}: SectionMissing {section}\n")
}

/// The line of a fault of the query's text, at a place in it.
pub fn query_line(alloc: Global, at: usize, cause: &str) -> Result<String, AllocError>
    ensures { IfOk result (λ s. string_bytes s ≡ query_line at cause.now) }
{
    format!(in alloc; "fault: query at {at}: {cause}\n")
}

/// Adds a line of a report: a name and what it says.
pub fn push_line(out: &mut Vec<u8>, name: &[u8], says: &[u8]) -> Result<(), AllocError>
    ensures { OnOk result (out.new.items ≡ out.old.items ++ report_line name.now says.now) }
{
    out.extend_from_slice(name)?;
    out.extend_from_slice(b": ")?;
    out.extend_from_slice(says)?;
    out.extend_from_slice(b"\n")
}

/// Adds a line that says a number.
pub fn push_count(
    alloc: Global,
    out: &mut Vec<u8>,
    name: &[u8],
    count: u64,
) -> Result<(), AllocError>
    ensures { OnOk result (out.new.items ≡ out.old.items ++ report_line name.now (decimal count)) }
{
    let text = format!(in alloc; "{count}")?;
    push_line(out, name, text.as_bytes())
}

fn push_truth(out: &mut Vec<u8>, name: &[u8], truth: bool) -> Result<(), AllocError>
    ensures { OnOk result (out.new.items ≡ out.old.items ++ report_line name.now (truth_text truth)) }
{
    push_line(out, name, if truth { b"true".as_slice() } else { b"false" })
}

/// The lines of a report.
pub fn report_text(alloc: Global, report: &Report<'_>) -> Result<Vec<u8>, AllocError>
    ensures { IfOk result (λ v. v.items ≡ report_text (report_view report.now)) }
{
    let mut out = Vec::new(alloc);
    push_line(&mut out, b"query", report.query)?;
    push_line(&mut out, b"block", report.block)?;
    push_line(&mut out, b"plan", report.plan)?;
    push_line(&mut out, b"outcome", report.outcome)?;
    push_truth(&mut out, b"ok", report.ok)?;
    push_count(alloc, &mut out, b"firings", report.firings)?;
    push_count(alloc, &mut out, b"steps", report.steps)?;
    push_count(alloc, &mut out, b"visits", report.visits)?;
    push_line(&mut out, b"result", report.result)?;
    Ok(out)
}

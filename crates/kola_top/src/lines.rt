//! The lines of a job, and what each line is.

ghost use Rattle.std.specs.Prelude.{◌≡◌, ◌∷◌, ◌<◌, ◌≤◌, ◌==◌, drop, length, position};
ghost use Rattle.kola_top.specs.Layout.{is_blank, kind, lines_from, trim_blanks};
ghost use Rattle.kola_top.specs.Views.{line_view};
ghost use Rattle.std.specs.List.{list_all};
ghost use Rattle.std.specs.Str.Lines.{strip_carriage_return};

use crate::section::{Section, section_of};

/// What a line is.
#[derive(Clone, Copy)]
pub enum Kind {
    /// It has blanks alone.
    Blank,
    /// It has something else, and is no header.
    Text,
    /// It starts as a header does, and names no section.
    Unknown,
    /// It is the header of the section.
    Header(Section),
}

/// A line of a job.
#[derive(Clone, Copy)]
pub struct Line<'a> {
    /// Its bytes, without its ending.
    pub bytes: &'a [u8],
    /// Where it begins in the job.
    pub from: usize,
    /// Where the next line begins, or the job's length.
    pub next: usize,
}

fn is_blank(byte: u8) -> bool
    ensures { result ≡ is_blank byte }
{
    byte == b' ' || byte == b'\t'
}

#[tactic(auto, using(crate::proofs::LineLaws::trims), unfolding(crate::specs::Layout::trim_blanks))]
fn trim_blanks(bytes: &[u8]) -> &[u8]
    ensures { result.now ≡ trim_blanks bytes.now }
{
    let mut end = bytes.len();
    while end > 0 && is_blank(bytes[end - 1]) {
        end -= 1;
    }
    &bytes[..end]
}

fn is_all_blank(bytes: &[u8]) -> bool
    ensures { result ≡ list_all is_blank bytes.now }
{
    bytes.iter().all(|byte| is_blank(*byte))
}

/// What a line with these bytes is.
#[tactic(auto, unfolding(crate::specs::Layout::kind))]
pub fn kind_of(bytes: &[u8]) -> Kind
    ensures { result ≡ kind bytes.now }
{
    if bytes.starts_with(b"%%") {
        match section_of(trim_blanks(bytes)) {
            Some(section) => Kind::Header(section),
            None => Kind::Unknown,
        }
    } else if is_all_blank(bytes) {
        Kind::Blank
    } else {
        Kind::Text
    }
}

fn trim_return(bytes: &[u8]) -> &[u8]
    ensures { result.now ≡ strip_carriage_return bytes.now }
{
    match bytes {
        [front @ .., b'\r'] => front,
        _ => bytes,
    }
}

fn line_feed(bytes: &[u8]) -> Option<usize>
    ensures { result ≡ position (λ b. b == 10) bytes.now }
{
    bytes.iter().position(|byte| *byte == b'\n')
}

/// The line that begins at `from`.
pub fn line_at(job: &[u8], from: usize) -> Line<'_>
    requires { from < length job.now }
    ensures line { lines_from from (drop from job.now) ≡ line_view result
        ∷ lines_from result.next (drop result.next job.now) }
    ensures longer { from < result.next }
    ensures within { result.next ≤ length job.now }
{
    let rest = &job[from..];
    match line_feed(rest) {
        Some(length) => Line {
            bytes: trim_return(&rest[..length]),
            from,
            next: from + length + 1,
        },
        None => Line {
            bytes: rest,
            from,
            next: job.len(),
        },
    }
}

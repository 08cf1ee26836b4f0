//! Where the texts of a job's sections lie, and the first line that breaks the layout.

ghost use Rattle.std.specs.Prelude.{◌≡◌, ◌↔◌, ◌<◌, Ok, Err, IsOk, length};
ghost use Rattle.kola_top.specs.Layout.{lines_of, kinds, AreSections, IsFaultless, IsFirstFault};
ghost use Rattle.kola_top.specs.Scan.{closed, refused, read_header, read_kind, read, walk, start};
ghost use Rattle.kola_top.specs.Views.{line_view};
ghost use Rattle.kola_top.specs.declared.section.Sections.{Sections};
ghost use Rattle.kola_top.specs.declared.layout.LayoutFault.{LayoutFault};

use crate::lines::{Kind, Line, kind_of, line_at};
use crate::section::{Section, Sections, Span};

/// A line that breaks the layout of a job, counted from 1.
#[derive(Clone, Copy, Debug, PartialEq, Eq)]
pub struct LayoutFault {
    pub line: u64,
    pub why: LayoutWhy,
}

/// What is wrong with a line of a job.
#[derive(Clone, Copy, Debug, PartialEq, Eq)]
pub enum LayoutWhy {
    /// The line stands before the first header, starts with no `%%`, and has more than blanks and tabs.
    TextBefore,
    /// The line starts with `%%` and is no header.
    UnknownSection,
    /// The line is the header of a section which, or one after which, has come before.
    SectionOutOfOrder,
}

/// The section whose text goes on, and where that text begins.
#[derive(Clone, Copy)]
struct Opened {
    section: Section,
    from: usize,
}

/// What is known of a job after some of its lines.
#[derive(Clone, Copy)]
struct Progress {
    found: Sections,
    opened: Option<Opened>,
}

impl Progress {
    const START: Progress = Progress {
        found: Sections {
            schema: None,
            database: None,
            rules: None,
            query: None,
            lines: 0,
        },
        opened: None,
    };

    /// What was found, where the open section ends before the byte at `to`.
    fn closed(self, to: usize) -> Sections
        ensures { result ≡ closed to self }
    {
        match self.opened {
            None => self.found,
            Some(Opened { section, from }) => self.found.put(section, Span { from, to }),
        }
    }

    fn refused(self, why: LayoutWhy) -> Result<Progress, LayoutFault>
        ensures { result ≡ refused self why }
    {
        Err(LayoutFault {
            line: self.found.lines,
            why,
        })
    }

    fn read_header(self, section: Section, line: &Line) -> Result<Progress, LayoutFault>
        ensures { result ≡ read_header section (line_view line.now) self }
    {
        if let Some(opened) = self.opened
            && section.order() <= opened.section.order()
        {
            return self.refused(LayoutWhy::SectionOutOfOrder);
        }
        Ok(Progress {
            found: self.closed(line.from),
            opened: Some(Opened {
                section,
                from: line.next,
            }),
        })
    }

    fn read_kind(self, kind: Kind, line: &Line) -> Result<Progress, LayoutFault>
        ensures { result ≡ read_kind kind (line_view line.now) self }
    {
        match kind {
            Kind::Blank => Ok(self),
            Kind::Text if self.opened.is_none() => self.refused(LayoutWhy::TextBefore),
            Kind::Text => Ok(self),
            Kind::Unknown => self.refused(LayoutWhy::UnknownSection),
            Kind::Header(section) => self.read_header(section, line),
        }
    }

    /// What is known after one more line.
    #[tactic(auto, unfolding(crate::specs::Scan::read))]
    fn read(self, line: &Line) -> Result<Progress, LayoutFault>
        requires { self.found.lines < u64.MAX }
        ensures { result ≡ read (line_view line.now) self }
    {
        let mut progress = self;
        progress.found.lines += 1;
        progress.read_kind(kind_of(line.bytes), line)
    }
}

/// Finds the sections of a job, or the first line that breaks the layout.
///
/// A job is bytes in lines that end with a line feed or with the end of the job; one carriage return before the line
/// feed belongs to the ending. A line that starts with `%%` is a header and, less the spaces and tabs at its end, is
/// `%% schema`, `%% database`, `%% rules` or `%% query`. Before the first header only lines of spaces and tabs stand. A section's text begins behind its header
/// line, ends before the next header or with the job, and keeps every byte. Takes no memory.
pub fn sections(job: &[u8]) -> Result<Sections, LayoutFault>
    ensures accepted { IsOk result ↔ IsFaultless (kinds (lines_of job.now)) }
    ensures found { (found : Sections) → (result ≡ Ok found) ↔ AreSections job.now found }
    ensures refused { (fault : LayoutFault) → (result ≡ Err fault) ↔ IsFirstFault (kinds (lines_of job.now)) fault }
{
    scan(job)
}

fn scan(job: &[u8]) -> Result<Sections, LayoutFault>
    ensures { result ≡ walk (length job.now) (lines_of job.now) start }
{
    let mut progress = Progress::START;
    let mut from = 0;
    while from < job.len() {
        let line = line_at(job, from);
        progress = progress.read(&line)?;
        from = line.next;
    }
    Ok(progress.closed(job.len()))
}

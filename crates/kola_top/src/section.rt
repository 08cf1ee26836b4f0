//! The sections of a job: their order, the headers that name them, and the places of their texts.

ghost use Rattle.std.specs.Prelude.{◌≡◌};
ghost use Rattle.kola_top.specs.Layout.{order, section_of, place_of};
ghost use Rattle.kola_top.specs.FaultLines.{section_name};
ghost use Rattle.kola_top.specs.Scan.{put};

/// A section of a job. The variants stand in the order of the sections.
#[derive(Clone, Copy)]
pub enum Section {
    Schema,
    Database,
    Rules,
    Query,
}

impl Section {
    /// The section's place in the order of the sections, from 0.
    pub fn order(self) -> u8
        ensures { result ≡ order self }
    {
        self as u8
    }

    /// The section's name, as it is printed.
    pub fn name(self) -> &'static str
        ensures { result.now ≡ section_name self }
    {
        match self {
            Section::Schema => "schema",
            Section::Database => "database",
            Section::Rules => "rules",
            Section::Query => "query",
        }
    }
}

/// The section that a header names, which has no blanks at its end.
#[tactic(auto, unfolding(crate::specs::Layout::section_of))]
pub fn section_of(header: &[u8]) -> Option<Section>
    ensures { result ≡ section_of header.now }
{
    match header {
        _ if header == b"%% schema".as_slice() => Some(Section::Schema),
        _ if header == b"%% database".as_slice() => Some(Section::Database),
        _ if header == b"%% rules".as_slice() => Some(Section::Rules),
        _ if header == b"%% query".as_slice() => Some(Section::Query),
        _ => None,
    }
}

/// A part of a job, from the byte at `from` up to the byte before `to`.
#[derive(Clone, Copy, Debug, PartialEq, Eq)]
pub struct Span {
    pub from: usize,
    pub to: usize,
}

/// The places of the sections' texts in a job, each `None` where the job has no such section, and the number of the job's lines.
#[derive(Clone, Copy, Debug, PartialEq, Eq)]
pub struct Sections {
    pub schema: Option<Span>,
    pub database: Option<Span>,
    pub rules: Option<Span>,
    pub query: Option<Span>,
    pub lines: u64,
}

impl Sections {
    /// The place of a section's text.
    pub fn place_of(&self, section: Section) -> Option<Span>
        ensures { result ≡ place_of section self.now }
    {
        match section {
            Section::Schema => self.schema,
            Section::Database => self.database,
            Section::Rules => self.rules,
            Section::Query => self.query,
        }
    }

    /// These places with the section at the span.
    pub fn put(self, section: Section, span: Span) -> Sections
        ensures { result ≡ put section span self }
    {
        let mut found = self;
        match section {
            Section::Schema => found.schema = Some(span),
            Section::Database => found.database = Some(span),
            Section::Rules => found.rules = Some(span),
            Section::Query => found.query = Some(span),
        }
        found
    }
}

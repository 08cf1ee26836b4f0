//! How a call of the program ends.

ghost use Rattle.std.specs.Prelude.{◌≡◌};
ghost use Rattle.kola_top.specs.Statuses.{status_code};

/// How a call of the program ends. Each answer but `ReadFault`, `WriteFault` and `Memory` writes its lines whole.
#[derive(Clone, Copy, Debug, PartialEq, Eq)]
pub enum Status {
    /// The report was written.
    Ok,
    /// The words are no command.
    Usage,
    /// The layout of the job is broken, or a section is missing.
    Layout,
    /// The schema text is refused.
    Schema,
    /// The database text is refused.
    Database,
    /// The query text is refused.
    Query,
    /// The rule text or a rule is refused.
    Rules,
    /// The block is refused.
    Block,
    /// The query takes more visits than it may.
    Visits,
    /// The source failed, and nothing was written.
    ReadFault,
    /// The sink failed, and took a part from the front of what was to be written.
    WriteFault,
    /// Memory ran out, and nothing was written.
    Memory,
    /// The job is too long.
    TooLong,
    /// The translated term is too large.
    TermTooLarge,
}

impl Status {
    /// The number with which the program ends.
    pub fn code(self) -> u8
        ensures { result ≡ status_code self }
    {
        match self {
            Status::Ok => 0,
            Status::Usage => 2,
            Status::Layout => 3,
            Status::Schema => 4,
            Status::Database => 5,
            Status::Query => 6,
            Status::Rules => 7,
            Status::Block => 8,
            Status::Visits => 9,
            Status::ReadFault => 10,
            Status::WriteFault => 11,
            Status::Memory => 12,
            Status::TooLong => 13,
            Status::TermTooLarge => 14,
        }
    }
}

//! Why a text is no schema, and where.

ghost use Rattle.std.specs.Prelude.{◌≡◌};
ghost use Rattle.kola_load.specs.CauseNames.{schema_name};
ghost use Rattle.kola_load.specs.declared.schema_fault.SchemaFault.TheVariants.{Memory};

use kola_base::LexWhy;
use std::alloc::AllocError;
use std::fmt;
use thiserror::Error;

/// Why a name is at fault.
#[derive(Clone, Copy, Debug, PartialEq, Eq)]
pub enum NameWhy {
    /// A class name does not start with a capital letter, or an extent is named by a word of queries, terms or rules.
    NotAllowed,
    /// A class, an extent or an attribute of one class is named so before.
    TwiceDefined,
    /// A type names no class.
    UnknownClass,
    /// A key names no attribute of its class.
    UnknownKeyAttribute,
}

/// A cause at a place.
#[derive(Clone, Copy, Debug, PartialEq, Eq)]
pub struct Mark {
    pub at: usize,
    pub why: NameWhy,
}

/// Why a text is no schema.
#[derive(Clone, Copy, Debug, PartialEq, Eq)]
pub enum SchemaWhy {
    /// The text has no tokens.
    Lex(LexWhy),
    /// No schema begins with the tokens up to this one.
    Unexpected,
    /// A schema begins with the tokens up to this one, but none whose types nest at most 100 deep.
    TooDeep,
    /// A class name does not start with a capital letter, or an extent is named by a word of queries, terms or rules.
    NameNotAllowed,
    /// A class, an extent or an attribute of one class is named so before; at the second one.
    TwiceDefined,
    /// A type names no class.
    UnknownClass,
    /// A key names no attribute of its class.
    UnknownKeyAttribute,
}

impl SchemaWhy {
    /// The cause's name, as it is printed.
    pub fn name(self) -> &'static str
        ensures { result.now ≡ schema_name self }
    {
        match self {
            SchemaWhy::Lex(why) => why.name(),
            SchemaWhy::Unexpected => "Unexpected",
            SchemaWhy::TooDeep => "TooDeep",
            SchemaWhy::NameNotAllowed => "NameNotAllowed",
            SchemaWhy::TwiceDefined => "TwiceDefined",
            SchemaWhy::UnknownClass => "UnknownClass",
            SchemaWhy::UnknownKeyAttribute => "UnknownKeyAttribute",
        }
    }
}

impl fmt::Display for SchemaWhy {
    fn fmt<W: fmt::Write>(&self, f: &mut fmt::Formatter<W>) -> fmt::Result {
        f.write_str(self.name())
    }
}

/// The first fault of a text that is no schema, or want of memory.
#[derive(Clone, Copy, Debug, PartialEq, Eq, Error)]
pub enum SchemaFault {
    /// The place, counted in bytes from 0, and the cause.
    #[error("{why} at {at}")]
    At { at: usize, why: SchemaWhy },
    /// Memory was wanted.
    #[error("out of memory")]
    Memory,
}

impl From<AllocError> for SchemaFault {
    ghost from_gives = { λ _ e. e ≡ Memory };

    fn from(_e: AllocError) -> Self {
        SchemaFault::Memory
    }
}

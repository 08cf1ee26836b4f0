//! Why a query has no type, and where.

ghost use Rattle.std.specs.Prelude.{◌≡◌};
ghost use Rattle.oql_check.specs.CheckAnswers.{check_name};

use kola_core::Memory;

/// Why a query has no type.
#[derive(Clone, Copy, Debug, PartialEq, Eq)]
pub enum CheckWhy {
    /// A name is no variable in scope and no extent.
    UnknownName,
    /// What stands before a label is no object with such an attribute and no struct with such a field.
    NoSuchAttribute,
    /// A part that must be a set is none.
    NotASet,
    /// A part that must be a truth value is none.
    NotBool,
    /// Two parts that must be of one type are not.
    TypesDiffer,
    /// What is compared by order is neither a number nor a text.
    NotOrdered,
    /// A label stands in its struct already.
    RepeatedLabel,
    /// A struct has more than eight fields.
    TooManyFields,
    /// A type has more than 4,096 nodes.
    TypeTooLarge,
}

impl CheckWhy {
    /// The cause's name.
    pub fn name(self) -> &'static str
        ensures { result.now ≡ check_name self }
    {
        match self {
            CheckWhy::UnknownName => "UnknownName",
            CheckWhy::NoSuchAttribute => "NoSuchAttribute",
            CheckWhy::NotASet => "NotASet",
            CheckWhy::NotBool => "NotBool",
            CheckWhy::TypesDiffer => "TypesDiffer",
            CheckWhy::NotOrdered => "NotOrdered",
            CheckWhy::RepeatedLabel => "RepeatedLabel",
            CheckWhy::TooManyFields => "TooManyFields",
            CheckWhy::TypeTooLarge => "TypeTooLarge",
        }
    }
}

/// The first fault of a query that has no type, or want of memory.
#[derive(Clone, Copy, Debug, PartialEq, Eq)]
pub enum CheckFault {
    /// The place of the fault in bytes from 0, and its cause.
    At { at: usize, why: CheckWhy },
    Memory,
}

impl From<Memory> for CheckFault {
    ghost use Rattle.std.specs.Prelude.{◌≡◌};
    ghost use Rattle.oql_check.specs.declared.fault.CheckFault.TheVariants as fault;

    ghost from_gives = { λ _ e. e ≡ fault.Memory };

    fn from(_e: Memory) -> CheckFault {
        CheckFault::Memory
    }
}

//! Why a draft is refused.

ghost use Rattle.std.specs.Prelude.{◌≡◌};
ghost use Rattle.kola_proof.specs.CauseNames.{step_name};

use kola_core::{Memory, Name};
use kola_rule::{Draft, Rule};

/// What is wrong with a draft.
#[derive(Debug, Clone, Copy, PartialEq, Eq)]
pub enum StepWhy {
    /// A law or an earlier rule has the rule's name.
    NameTaken,
    /// The rule is not well typed.
    RuleIllTyped,
    /// The first term is not the left side.
    FirstIsNotLeft,
    /// No law and no earlier rule has the name.
    UnknownLaw,
    /// No function or predicate stands at the path in the term before the step.
    NoSuchPath,
    /// The term after the step does not fit at the input type, or differs from the left side in kind or output type.
    StepIllTyped,
    /// No instance of the law gives both terms, or they differ elsewhere.
    NoInstance,
    /// A condition of the law is not shown.
    ConditionNotShown,
    /// The last term is not the right side.
    LastIsNotRight,
}

impl StepWhy {
    /// The cause's name, as it is printed.
    pub fn name(self) -> &'static str
        ensures { result.now ≡ step_name self }
    {
        match self {
            StepWhy::NameTaken => "NameTaken",
            StepWhy::RuleIllTyped => "RuleIllTyped",
            StepWhy::FirstIsNotLeft => "FirstIsNotLeft",
            StepWhy::UnknownLaw => "UnknownLaw",
            StepWhy::NoSuchPath => "NoSuchPath",
            StepWhy::StepIllTyped => "StepIllTyped",
            StepWhy::NoInstance => "NoInstance",
            StepWhy::ConditionNotShown => "ConditionNotShown",
            StepWhy::LastIsNotRight => "LastIsNotRight",
        }
    }
}

/// Why a draft is not accepted. It is handed back.
#[derive(Drop)]
pub enum AdmitFault {
    /// The first fault of the draft: the number of its step, counted from 1, or 0, and the cause.
    Refused {
        /// The number of the step.
        step: usize,
        /// The cause.
        why: StepWhy,
        /// The draft.
        draft: Draft,
    },
    /// Want of memory.
    Memory {
        /// The draft.
        draft: Draft,
    },
}

impl From<(Memory, Draft)> for AdmitFault {
    ghost use Rattle.std.specs.Prelude.{◌≡◌};
    ghost use Rattle.kola_proof.specs.declared.fault.AdmitFault.TheVariants as fault;

    ghost from_gives = { λ refused e. e ≡ fault.Memory refused.1 };

    fn from(refused: (Memory, Draft)) -> AdmitFault {
        let (_, draft) = refused;
        AdmitFault::Memory { draft }
    }
}

/// Why the drafts of a file are not accepted.
#[derive(Drop)]
pub enum FileFault {
    /// The first draft that has a fault.
    Refused {
        /// The name of its rule.
        name: Name,
        /// The number of the step, counted from 1, or 0.
        step: usize,
        /// The cause.
        why: StepWhy,
    },
    /// Want of memory.
    Memory,
}

/// The name of the rule of a draft.
fn name_of(draft: Draft) -> Name
    ensures { result ≡ draft.rule.name }
{
    let Draft { rule, .. } = draft;
    let Rule { name, .. } = rule;
    name
}

impl From<AdmitFault> for FileFault {
    ghost use Rattle.std.specs.Prelude.{◌≡◌};
    ghost use Rattle.kola_proof.specs.Accepting.{file_fault};

    ghost from_gives = { λ fault e. e ≡ file_fault fault };

    fn from(fault: AdmitFault) -> FileFault {
        match fault {
            AdmitFault::Refused { step, why, draft } => FileFault::Refused {
                name: name_of(draft),
                step,
                why,
            },
            AdmitFault::Memory { .. } => FileFault::Memory,
        }
    }
}

/// What is wrong with a step.
#[derive(Clone, Copy)]
pub(crate) enum StepFault {
    Bad(StepWhy),
    Memory,
}

impl From<Memory> for StepFault {
    ghost use Rattle.std.specs.Prelude.{◌≡◌};
    ghost use Rattle.kola_proof.specs.declared.fault.StepFault.TheVariants as fault;

    ghost from_gives = { λ _ e. e ≡ fault.Memory };

    fn from(_e: Memory) -> StepFault {
        StepFault::Memory
    }
}

/// What is wrong with a draft, and with which step.
#[derive(Clone, Copy)]
pub(crate) enum CheckFault {
    At(usize, StepWhy),
    Memory,
}

impl From<Memory> for CheckFault {
    ghost use Rattle.std.specs.Prelude.{◌≡◌};
    ghost use Rattle.kola_proof.specs.declared.fault.CheckFault.TheVariants as fault;

    ghost from_gives = { λ _ e. e ≡ fault.Memory };

    fn from(_e: Memory) -> CheckFault {
        CheckFault::Memory
    }
}

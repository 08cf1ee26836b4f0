//! Why a term has no value within a limit.

use kola_core::Memory;

/// Why a term was not evaluated.
#[derive(Debug, Drop)]
pub enum EvalFault {
    /// The visits are more than the limit.
    VisitLimit { limit: u64 },
    /// Want of memory.
    Memory,
}

impl From<Memory> for EvalFault {
    ghost use Rattle.std.specs.Prelude.{◌≡◌};
    ghost use Rattle.kola_eval.specs.declared.fault.EvalFault.TheVariants as fault;

    ghost from_gives = { λ _ e. e ≡ fault.Memory };

    fn from(_e: Memory) -> EvalFault {
        EvalFault::Memory
    }
}

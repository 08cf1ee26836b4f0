//! Why a block has no plan.

use kola_core::{Memory, Name};

/// Why a block has no plan, with the block in which the faulty name stands.
#[derive(Drop)]
pub enum CompileFault {
    /// No block has the chosen name.
    UnknownBlock,
    /// The name is no earlier block's and no rule's.
    UnknownRule { block: Name, name: Name },
    /// The name is that of its own block or of a later one.
    LaterBlock { block: Name, name: Name },
    /// The rule would put in a variable that its pattern side lacks.
    CannotFire { block: Name, name: Name },
    /// Want of memory.
    Memory,
}

impl From<Memory> for CompileFault {
    ghost use Rattle.std.specs.Prelude.{◌≡◌};
    ghost use Rattle.coko_plan.specs.declared.fault.CompileFault.TheVariants as fault;

    ghost from_gives = { λ _ e. e ≡ fault.Memory };

    fn from(_e: Memory) -> CompileFault {
        CompileFault::Memory
    }
}

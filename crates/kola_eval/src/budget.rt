//! The visits that are left, of which each member that is visited takes one.
ghost use Rattle.std.specs.Prelude.{◌≡◌};
ghost use Rattle.kola_eval.specs.Lending.{Paid};

use kola_core::Memory;

/// Why an evaluation stops.
#[derive(Clone, Copy)]
pub(crate) enum Stop {
    /// No visit is left, and one is wanted.
    Limit,
    /// Want of memory.
    Memory,
}

impl From<Memory> for Stop {
    ghost use Rattle.std.specs.Prelude.{◌≡◌};
    ghost use Rattle.kola_eval.specs.declared.budget.Stop.TheVariants as stop;

    ghost from_gives = { λ _ e. e ≡ stop.Memory };

    fn from(_e: Memory) -> Stop {
        Stop::Memory
    }
}

// Takes so many visits of those that are left.
pub(crate) fn pay(left: &mut u64, visits: u64) -> Result<(), Stop>
    ensures { Paid visits left.old left.new result }
{
    if *left < visits {
        return Err(Stop::Limit);
    }
    *left -= visits;
    Ok(())
}

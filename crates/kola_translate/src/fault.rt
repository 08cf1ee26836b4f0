//! Why a query has no translation in hand.

use kola_core::Memory;

/// Why a query is not translated.
#[derive(Clone, Copy, Debug, PartialEq, Eq)]
pub enum TranslateFault {
    /// The term has more than 20,000 nodes, a greater depth than 256, or a function whose output type has more than 4,096 nodes at its place.
    TooLarge,
    Memory,
}

impl From<Memory> for TranslateFault {
    ghost use Rattle.std.specs.Prelude.{◌≡◌};
    ghost use Rattle.kola_translate.specs.declared.fault.TranslateFault.TheVariants as fault;

    ghost from_gives = { λ _ e. e ≡ fault.Memory };

    fn from(_e: Memory) -> TranslateFault {
        TranslateFault::Memory
    }
}

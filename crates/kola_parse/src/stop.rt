//! Why a reader stopped.

ghost use Rattle.std.specs.Prelude.{◌≡◌, Err};
ghost use Rattle.kola_parse.specs.declared.stop.Stop.TheVariants.{Memory, Before};
ghost use Rattle.kola_parse.specs.declared.why.Why.TheVariants.{Unexpected};

use crate::why::Why;
use std::alloc::{AllocError, AllocFailed};

/// Why a reader of the code stopped, and where: before the rest of the text, from the token that it did not take.
#[derive(Drop)]
pub enum Stop<R> {
    /// Memory was wanted.
    Memory,
    /// The cause, and the rest from the token that was not taken.
    Before(Why, R),
}

impl<R> From<AllocError> for Stop<R> {
    ghost from_gives = { λ _ e. e ≡ Memory };

    fn from(_e: AllocError) -> Self {
        Stop::Memory
    }
}

impl<R, X: Drop> From<AllocFailed<X>> for Stop<R> {
    ghost from_gives = { λ _ e. e ≡ Memory };

    fn from(_e: AllocFailed<X>) -> Self {
        Stop::Memory
    }
}

/// The answer that no text goes on with the first token of the rest.
pub fn stray<X, R>(rest: R) -> Result<X, Stop<R>>
    ensures { result ≡ Err (Before Unexpected rest) }
{
    Err(Stop::Before(Why::Unexpected, rest))
}

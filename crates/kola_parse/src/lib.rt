//! The ways to join readers of texts, what it is to read a language, and the theorem of the first fault.
#![tactic(auto)]

mod levels;
mod stop;
mod why;

pub use levels::inner_of;
pub use stop::{Stop, stray};
pub use why::Why;

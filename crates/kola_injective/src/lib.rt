//! Functions that are shown to be injective.
#![tactic(auto)]

mod facts;
mod infer;
mod keys;

pub use facts::derived_functions_are_injective;
pub use infer::infer_inj;

//! The 88 laws of the algebra, each of which holds in every database.
#![tactic(auto)]

mod choice;
mod comparison;
mod composition;
mod facts;
mod injectivity;
mod iteration;
mod joining;
mod maker;
mod nesting;
mod quantifiers;
mod restriction;
mod set_operations;
mod table;
mod truth;

pub use facts::{every_law_holds, every_law_is_well_typed};
pub use table::laws;

//! The machine that runs plans, against what a run of a statement comes to.
#![tactic(auto)]

mod conditions;
mod fire;
mod fitting;
mod laws;
mod machine;
mod moves;
mod outcome;
mod run;
mod shape;
mod stack;

pub use laws::{a_run_has_one_outcome, a_run_keeps_the_meaning};
pub use outcome::{End, Firing, Firings, Outcome};
pub use run::run_plan;

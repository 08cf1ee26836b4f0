//! The evaluator of terms: a term's value at a value in a database, with the members that it visits counted.
#![tactic(auto)]

mod budget;
mod evaluation;
mod fault;
mod held;
mod laws;
mod lending;
mod lent;
mod made;
mod parts;
mod run;
mod terms;

pub use evaluation::{Evaluated, eval};
pub use fault::EvalFault;
pub use laws::the_order_of_objects_does_not_matter;

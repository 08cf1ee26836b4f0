//! The one canonical spelling of every query.
#![tactic(auto)]

mod print;

pub use print::print_query;

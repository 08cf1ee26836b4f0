//! Rules and their drafts, and tables of rules by their names.
#![tactic(auto)]

mod rule;
mod table;

pub use rule::{Draft, Drafts, Rule, Step, Steps};
pub use table::{RuleTable, names_are_distinct};

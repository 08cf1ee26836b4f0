//! The text of rules with their proofs.
#![tactic(auto)]

mod laws;
mod paths;
mod read;
mod rule;
mod steps;
mod tokens;
mod types;
mod vars;
mod when;

pub use laws::a_text_is_one_file_or_has_one_fault;
pub use read::{RuleFile, read_rules};

//! The statements of rule blocks, and what a file of rules writes.
#![tactic(auto)]

mod file;
mod stmt;

pub use file::RuleFile;
pub use stmt::{Arms, Block, Blocks, BoxedStmt, Stmt, Stmts};

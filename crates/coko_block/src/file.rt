//! What a file of rules writes: rules with their proofs, and blocks.

use crate::stmt::Blocks;
use kola_rule::Drafts;

/// What a text of rules writes.
#[derive(Drop)]
pub struct RuleFile {
    /// The rules with their proofs, in their order.
    pub drafts: Drafts,
    /// The blocks, in their order.
    pub blocks: Blocks,
}

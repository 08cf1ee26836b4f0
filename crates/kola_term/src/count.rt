//! The number of nodes of a term, and its depth.

ghost use Rattle.std.specs.Prelude.{◌≡◌, ◌-◌, ◌^◌, min};
ghost use Rattle.kola_term.specs.Counts.{fun_nodes, pred_nodes, nodes, fun_depth, pred_depth, depth};
ghost use Rattle.kola_term.specs.Parts.{sub_tree};
ghost use Rattle.kola_term.specs.TermView.{fun_tree, pred_tree, term_tree};

use crate::part::{Children, SubTerm};
use crate::term::{Fun, Pred, Term};

#[tactic(auto, using(crate::proofs::ByChildren::by_children))]
fn part_nodes(part: SubTerm) -> u64
    ensures { result ≡ min (nodes (sub_tree part.entry)) (2 ^ 64 - 1) }
{
    match part.children() {
        Children::Leaf => 1,
        Children::One(a) => part_nodes(a).saturating_add(1),
        Children::Two(a, b) => part_nodes(a)
            .saturating_add(part_nodes(b))
            .saturating_add(1),
        Children::Three(a, b, c) => part_nodes(a)
            .saturating_add(part_nodes(b))
            .saturating_add(part_nodes(c))
            .saturating_add(1),
    }
}

#[tactic(auto, using(crate::proofs::ByChildren::by_children))]
fn part_depth(part: SubTerm) -> u64
    ensures { result ≡ min (depth (sub_tree part.entry)) (2 ^ 64 - 1) }
{
    match part.children() {
        Children::Leaf => 1,
        Children::One(a) => part_depth(a).saturating_add(1),
        Children::Two(a, b) => part_depth(a).max(part_depth(b)).saturating_add(1),
        Children::Three(a, b, c) => part_depth(a)
            .max(part_depth(b))
            .max(part_depth(c))
            .saturating_add(1),
    }
}

impl Fun {
    /// The number of nodes, at most 18446744073709551615: all functions, predicates and constants.
    pub fn nodes(&self) -> u64
        ensures { result ≡ min (fun_nodes (fun_tree self.now)) (2 ^ 64 - 1) }
    {
        part_nodes(SubTerm::F(self))
    }

    /// The depth, at most 18446744073709551615; a leaf has depth 1.
    pub fn depth(&self) -> u64
        ensures { result ≡ min (fun_depth (fun_tree self.now)) (2 ^ 64 - 1) }
    {
        part_depth(SubTerm::F(self))
    }
}

impl Pred {
    /// The number of nodes, at most 18446744073709551615: all functions, predicates and constants.
    pub fn nodes(&self) -> u64
        ensures { result ≡ min (pred_nodes (pred_tree self.now)) (2 ^ 64 - 1) }
    {
        part_nodes(SubTerm::P(self))
    }

    /// The depth, at most 18446744073709551615; a leaf has depth 1.
    pub fn depth(&self) -> u64
        ensures { result ≡ min (pred_depth (pred_tree self.now)) (2 ^ 64 - 1) }
    {
        part_depth(SubTerm::P(self))
    }
}

/// The number of nodes of a term, at most 18446744073709551615: all functions, predicates and constants.
pub fn nodes(t: &Term) -> u64
    ensures { result ≡ min (nodes (term_tree t.now)) (2 ^ 64 - 1) }
{
    part_nodes(t.as_part())
}

/// The depth of a term, at most 18446744073709551615; a leaf has depth 1.
pub fn depth(t: &Term) -> u64
    ensures { result ≡ min (depth (term_tree t.now)) (2 ^ 64 - 1) }
{
    part_depth(t.as_part())
}

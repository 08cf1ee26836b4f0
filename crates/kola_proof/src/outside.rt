//! Two terms that are the same outside of a path.

ghost use Rattle.std.specs.Prelude.{◌≡◌, ◌↔◌, true};
ghost use Rattle.std.specs.Option.{option_map};
ghost use Rattle.kola_term.specs.Parts.{sub_tree};
ghost use Rattle.kola_term.specs.Places.{children, nth};
ghost use Rattle.kola_proof.specs.Outside.{both_trees, SameUnless, AreChildren, AreParts};

use kola_match::{same_node, same_part};
use kola_term::SubTerm;

/// Whether the children of two nodes with one number are the same, or both missing.
fn same_child(b: SubTerm, c: SubTerm, k: u8) -> bool
    ensures { (result ≡ true) ↔ (nth k (children (sub_tree b.entry)) ≡ nth k (children (sub_tree c.entry))) }
{
    match (b.child(k), c.child(k)) {
        (Some(x), Some(y)) => same_part(x, y),
        (None, None) => true,
        _ => false,
    }
}

/// Whether so are those with the number `k`, unless that is `n`.
fn same_unless(b: SubTerm, c: SubTerm, n: u8, k: u8) -> bool
    ensures { (result ≡ true) ↔ SameUnless n k (sub_tree b.entry) (sub_tree c.entry) }
{
    if n == k {
        return true;
    }
    same_child(b, c, k)
}

/// Whether all children of two nodes but the `n`-th are the same. A node has at most three.
fn same_others(b: SubTerm, c: SubTerm, n: u8) -> bool
    ensures { (result ≡ true) ↔ (
        SameUnless n 1 (sub_tree b.entry) (sub_tree c.entry)
        × SameUnless n 2 (sub_tree b.entry) (sub_tree c.entry)
        × SameUnless n 3 (sub_tree b.entry) (sub_tree c.entry)
        ) }
{
    same_unless(b, c, n, 1) && same_unless(b, c, n, 2) && same_unless(b, c, n, 3)
}

/// The `n`-th children of two nodes, where the nodes and their other children are the same.
fn children_at<'b, 'c>(b: SubTerm<'b>, c: SubTerm<'c>, n: u8) -> Option<(SubTerm<'b>, SubTerm<'c>)>
    ensures { AreChildren (sub_tree b.entry) (sub_tree c.entry) n (option_map both_trees result) }
{
    if !same_node(b, c) {
        return None;
    }
    if !same_others(b, c, n) {
        return None;
    }
    let Some(ours) = b.child(n) else {
        return None;
    };
    let Some(theirs) = c.child(n) else {
        return None;
    };
    Some((ours, theirs))
}

/// The parts of two terms at a path, where the terms are the same outside of it. It takes no memory.
pub(crate) fn parts_at<'b, 'c>(
    b: SubTerm<'b>,
    c: SubTerm<'c>,
    path: &[u8],
) -> Option<(SubTerm<'b>, SubTerm<'c>)>
    ensures { AreParts (sub_tree b.entry) (sub_tree c.entry) path.now (option_map both_trees result) }
{
    let Some((n, rest)) = path.split_first() else {
        return Some((b, c));
    };
    let Some((ours, theirs)) = children_at(b, c, *n) else {
        return None;
    };
    parts_at(ours, theirs, rest)
}

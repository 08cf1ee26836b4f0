//! The children of two nodes side by side.

ghost use Rattle.std.specs.Prelude.{◌≡◌, ◌↔◌, true};
ghost use Rattle.std.specs.Option.{option_map};
ghost use Rattle.kola_term.specs.Parts.{sub_tree, child_trees};
ghost use Rattle.kola_match.specs.Alike.{alike, pair_trees, zipped};

use crate::nodes::same_node;
use kola_term::{Children, SubTerm};

/// The children of two nodes side by side, in printed order.
#[derive(Clone, Copy)]
pub(crate) enum Pairs<'p, 't> {
    Leaf,
    One(SubTerm<'p>, SubTerm<'t>),
    Two(SubTerm<'p>, SubTerm<'t>, SubTerm<'p>, SubTerm<'t>),
    Three(SubTerm<'p>, SubTerm<'t>, SubTerm<'p>, SubTerm<'t>, SubTerm<'p>, SubTerm<'t>),
}

/// Children side by side, where there are as many.
fn zipped<'p, 't>(ours: Children<'p>, theirs: Children<'t>) -> Option<Pairs<'p, 't>>
    ensures { option_map pair_trees result ≡ zipped (child_trees ours.entry) (child_trees theirs.entry) }
{
    match (ours, theirs) {
        (Children::Leaf, Children::Leaf) => Some(Pairs::Leaf),
        (Children::One(a), Children::One(b)) => Some(Pairs::One(a, b)),
        (Children::Two(a, c), Children::Two(b, d)) => Some(Pairs::Two(a, b, c, d)),
        (Children::Three(a, c, e), Children::Three(b, d, f)) => Some(Pairs::Three(
            a, b, c, d, e, f,
        )),
        _ => None,
    }
}

/// The children of two nodes side by side, where the nodes are the same.
pub(crate) fn alike<'p, 't>(a: SubTerm<'p>, b: SubTerm<'t>) -> Option<Pairs<'p, 't>>
    ensures { option_map pair_trees result ≡ alike (sub_tree a.entry) (sub_tree b.entry) }
{
    if same_node(a, b) {
        zipped(a.children(), b.children())
    } else {
        None
    }
}

/// Whether two terms are the same. It takes no memory.
pub fn same_part(a: SubTerm, b: SubTerm) -> bool
    ensures { (result ≡ true) ↔ (sub_tree a.entry ≡ sub_tree b.entry) }
{
    match alike(a, b) {
        None => false,
        Some(Pairs::Leaf) => true,
        Some(Pairs::One(a, b)) => same_part(a, b),
        Some(Pairs::Two(a, b, c, d)) => same_part(a, b) && same_part(c, d),
        Some(Pairs::Three(a, b, c, d, e, f)) => {
            if !same_part(a, b) {
                return false;
            }
            same_part(c, d) && same_part(e, f)
        }
    }
}

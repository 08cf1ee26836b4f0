//! The parts of a term, and the part at a path.

ghost use Rattle.std.specs.Prelude.{◌≡◌};
ghost use Rattle.std.specs.Option.{option_map};
ghost use Rattle.kola_term.specs.Terms.{TermF, TermP};
ghost use Rattle.kola_term.specs.TermView.{fun_tree, pred_tree, term_tree};
ghost use Rattle.kola_term.specs.Parts.{sub_tree, child_trees, entry_from};
ghost use Rattle.kola_term.specs.Places.{children, nth, sub_at};

use crate::constant::Const;
use crate::term::{Fun, Pred, Term};
use kola_core::Path;

/// A part of a term.
#[derive(Clone, Copy)]
pub enum SubTerm<'a> {
    F(&'a Fun),
    P(&'a Pred),
    C(&'a Const),
}

/// The children of a node, in printed order.
#[derive(Clone, Copy)]
pub enum Children<'a> {
    Leaf,
    One(SubTerm<'a>),
    Two(SubTerm<'a>, SubTerm<'a>),
    Three(SubTerm<'a>, SubTerm<'a>, SubTerm<'a>),
}

/// The children of a function.
fn fun_children<'a>(f: &'a Fun) -> Children<'a>
    ensures { child_trees result ≡ children (TermF (fun_tree f.now)) }
{
    match f {
        Fun::Comp(f, g)
        | Fun::Pair(f, g)
        | Fun::Times(f, g)
        | Fun::Nest(f, g)
        | Fun::Unnest(f, g) => Children::Two(SubTerm::F(f), SubTerm::F(g)),
        Fun::K(c) => Children::One(SubTerm::C(c)),
        Fun::C(f, c) => Children::Two(SubTerm::F(f), SubTerm::C(c)),
        Fun::If(p, f, g) => Children::Three(SubTerm::P(p), SubTerm::F(f), SubTerm::F(g)),
        Fun::Iterate(p, f) | Fun::Iter(p, f) | Fun::Join(p, f) => {
            Children::Two(SubTerm::P(p), SubTerm::F(f))
        }
        _ => Children::Leaf,
    }
}

/// The children of a predicate.
fn pred_children<'a>(p: &'a Pred) -> Children<'a>
    ensures { child_trees result ≡ children (TermP (pred_tree p.now)) }
{
    match p {
        Pred::At(p, f) => Children::Two(SubTerm::P(p), SubTerm::F(f)),
        Pred::And(p, q) | Pred::Or(p, q) => Children::Two(SubTerm::P(p), SubTerm::P(q)),
        Pred::Not(p) | Pred::Inv(p) | Pred::Ex(p) | Pred::Fa(p) => Children::One(SubTerm::P(p)),
        Pred::CP(p, c) => Children::Two(SubTerm::P(p), SubTerm::C(c)),
        _ => Children::Leaf,
    }
}

impl<'a> Children<'a> {
    /// The child with a number, counted from 1.
    fn numbered(self, n: u8) -> Option<SubTerm<'a>>
        ensures { option_map sub_tree result ≡ entry_from 1 n (child_trees self.entry) }
    {
        match (self, n) {
            (Children::One(a), 1) => Some(a),
            (Children::Two(a, _), 1) => Some(a),
            (Children::Two(_, b), 2) => Some(b),
            (Children::Three(a, _, _), 1) => Some(a),
            (Children::Three(_, b, _), 2) => Some(b),
            (Children::Three(_, _, c), 3) => Some(c),
            _ => None,
        }
    }
}

impl<'a> SubTerm<'a> {
    /// The children of the part, in printed order; a constant has none.
    pub fn children(self) -> Children<'a>
        ensures { child_trees result ≡ children (sub_tree self.entry) }
    {
        match self {
            SubTerm::F(f) => fun_children(f),
            SubTerm::P(p) => pred_children(p),
            SubTerm::C(_) => Children::Leaf,
        }
    }

    /// The part of this part at a path below it; `None` exactly where there is no such path. It takes no memory.
    pub fn at(self, path: &[u8]) -> Option<SubTerm<'a>>
        ensures { option_map sub_tree result ≡ sub_at (sub_tree self.entry) path.now }
    {
        let mut at = self;
        for n in path {
            at = at.child(*n)?;
        }
        Some(at)
    }

    /// The child of the part with a number, counted from 1; `None` exactly where there is none.
    pub fn child(self, n: u8) -> Option<SubTerm<'a>>
        ensures { option_map sub_tree result ≡ nth n (children (sub_tree self.entry)) }
    {
        self.children().numbered(n)
    }
}

impl Term {
    /// The whole term as a part of itself.
    pub fn as_part<'a>(&'a self) -> SubTerm<'a>
        ensures { sub_tree result ≡ term_tree self.now }
    {
        match self {
            Term::F(f) => SubTerm::F(f),
            Term::P(p) => SubTerm::P(p),
            Term::C(c) => SubTerm::C(c),
        }
    }
}

/// The part of a term at a path; `None` exactly where the term has no such path. It takes no memory.
pub fn sub_at<'a>(t: &'a Term, path: &Path) -> Option<SubTerm<'a>>
    ensures { option_map sub_tree result ≡ sub_at (term_tree t.now) path.now }
{
    t.as_part().at(path.as_slice())
}

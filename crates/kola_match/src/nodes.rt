//! Single nodes of terms, side by side.

ghost use Rattle.std.specs.Prelude.{◌≡◌};
ghost use Rattle.std.specs.Option.{option_map};
ghost use Rattle.kola_term.specs.TermView.{const_tree, fun_tree, pred_tree};
ghost use Rattle.kola_term.specs.Parts.{sub_tree};
ghost use Rattle.kola_match.specs.Nodes.{alike_funs, alike_preds, same_const, same_node};
ghost use Rattle.kola_match.specs.Alike.{same_kind, variable_name};
ghost use Rattle.kola_match.specs.NodeViews.{name_at};

use kola_core::Name;
use kola_term::{Const, Fun, Pred, SubTerm};

/// Whether two constants are the same.
fn same_const(a: &Const, b: &Const) -> bool
    ensures { result ≡ same_const (const_tree a.now) (const_tree b.now) }
{
    match (a, b) {
        (Const::Int(m), Const::Int(n)) => m.cmp(n).is_eq(),
        (Const::Bool(m), Const::Bool(n)) => m == n,
        (Const::Str(s), Const::Str(t)) => s.is(t),
        (Const::Literals(vs), Const::Literals(ws)) => vs.set().is(ws.set()),
        (Const::Extent(m), Const::Extent(n)) | (Const::Meta(m), Const::Meta(n)) => m.is(n),
        _ => false,
    }
}

/// Whether two functions have one constructor, and one name where it has one.
fn alike_funs(f: &Fun, g: &Fun) -> bool
    ensures { result ≡ alike_funs (fun_tree f.now) (fun_tree g.now) }
{
    match (f, g) {
        (Fun::Attr(m), Fun::Attr(n)) | (Fun::Meta(m), Fun::Meta(n)) => m.is(n),
        (Fun::Id, Fun::Id)
        | (Fun::Fst, Fun::Fst)
        | (Fun::Snd, Fun::Snd)
        | (Fun::Flat, Fun::Flat)
        | (Fun::Union, Fun::Union)
        | (Fun::Isect, Fun::Isect)
        | (Fun::Minus, Fun::Minus)
        | (Fun::Comp(_, _), Fun::Comp(_, _))
        | (Fun::Pair(_, _), Fun::Pair(_, _))
        | (Fun::Times(_, _), Fun::Times(_, _))
        | (Fun::K(_), Fun::K(_))
        | (Fun::C(_, _), Fun::C(_, _))
        | (Fun::If(_, _, _), Fun::If(_, _, _))
        | (Fun::Iterate(_, _), Fun::Iterate(_, _))
        | (Fun::Iter(_, _), Fun::Iter(_, _))
        | (Fun::Join(_, _), Fun::Join(_, _))
        | (Fun::Nest(_, _), Fun::Nest(_, _))
        | (Fun::Unnest(_, _), Fun::Unnest(_, _)) => true,
        _ => false,
    }
}

/// Whether two predicates have one constructor, and one name or truth value where it has one.
fn alike_preds(p: &Pred, q: &Pred) -> bool
    ensures { result ≡ alike_preds (pred_tree p.now) (pred_tree q.now) }
{
    match (p, q) {
        (Pred::KP(a), Pred::KP(b)) => a == b,
        (Pred::Meta(m), Pred::Meta(n)) => m.is(n),
        (Pred::Eq, Pred::Eq)
        | (Pred::Lt, Pred::Lt)
        | (Pred::Le, Pred::Le)
        | (Pred::Member, Pred::Member)
        | (Pred::At(_, _), Pred::At(_, _))
        | (Pred::And(_, _), Pred::And(_, _))
        | (Pred::Or(_, _), Pred::Or(_, _))
        | (Pred::Not(_), Pred::Not(_))
        | (Pred::Inv(_), Pred::Inv(_))
        | (Pred::CP(_, _), Pred::CP(_, _))
        | (Pred::Ex(_), Pred::Ex(_))
        | (Pred::Fa(_), Pred::Fa(_)) => true,
        _ => false,
    }
}

/// Whether two nodes are the same, whatever their children: of one constructor, and with one name, truth value or
/// constant where it has one. It takes no memory.
pub fn same_node(a: SubTerm, b: SubTerm) -> bool
    ensures { result ≡ same_node (sub_tree a.entry) (sub_tree b.entry) }
{
    match (a, b) {
        (SubTerm::F(f), SubTerm::F(g)) => alike_funs(f, g),
        (SubTerm::P(p), SubTerm::P(q)) => alike_preds(p, q),
        (SubTerm::C(c), SubTerm::C(d)) => same_const(c, d),
        _ => false,
    }
}

/// Whether two terms are of one kind.
pub(crate) fn same_kind(a: SubTerm, b: SubTerm) -> bool
    ensures { result ≡ same_kind (sub_tree a.entry) (sub_tree b.entry) }
{
    match (a, b) {
        (SubTerm::F(_), SubTerm::F(_))
        | (SubTerm::P(_), SubTerm::P(_))
        | (SubTerm::C(_), SubTerm::C(_)) => true,
        _ => false,
    }
}

/// The name of a variable; `None` for any other node.
pub(crate) fn variable_name<'a>(part: SubTerm<'a>) -> Option<&'a Name>
    ensures { option_map name_at result ≡ variable_name (sub_tree part.entry) }
{
    match part {
        SubTerm::F(Fun::Meta(name))
        | SubTerm::P(Pred::Meta(name))
        | SubTerm::C(Const::Meta(name)) => Some(name),
        _ => None,
    }
}

//! A term with another part at a path.

ghost use Rattle.std.specs.Prelude.{◌≡◌, ◌↔◌, [], ◌∷◌, IfOk};
ghost use Rattle.kola_term.specs.Terms.{TermF, TermP, TermC};
ghost use Rattle.kola_term.specs.TermView.{const_tree, fun_tree, pred_tree, term_tree};
ghost use Rattle.kola_term.specs.Parts.{sub_tree};
ghost use Rattle.kola_term.specs.Places.{sub_at, put_in};
ghost use Rattle.kola_term.specs.PlaceAnswers.{OtherKind, UnlessMemory};
ghost use Rattle.kola_term.specs.Replacing.{IsPut, IsPutAmong, IsReplaced};

use crate::constant::Const;
use crate::part::SubTerm;
use crate::term::{Fun, Pred, Term, copied_fun, copied_pred};
use kola_core::{Memory, Path};
use std::alloc::Global;

/// Why a place of a term is refused.
#[derive(Debug, Clone, Copy, PartialEq, Eq)]
pub enum PlaceFault {
    /// The term has no such path.
    NoSuchPath,
    /// The part at the path has another kind than what is asked for.
    WrongKind,
    /// Want of memory.
    Memory,
}

impl From<Memory> for PlaceFault {
    ghost use Rattle.std.specs.Prelude.{◌≡◌};
    ghost use Rattle.kola_term.specs.declared.place.PlaceFault.TheVariants as fault;

    ghost from_gives = { λ _ e. e ≡ fault.Memory };

    fn from(_e: Memory) -> PlaceFault {
        PlaceFault::Memory
    }
}

/// Puts a copy of the new part in the place of a function.
fn exchange_fun(alloc: Global, f: &mut Box<Fun>, new: SubTerm) -> Result<(), PlaceFault>
    ensures { IsPut (TermF (fun_tree f.old.value)) [] (sub_tree new.entry) (TermF (fun_tree f.new.value)) result }
{
    let SubTerm::F(new) = new else {
        return Err(PlaceFault::WrongKind);
    };
    let copied = copied_fun(alloc, new)?;
    *f = copied;
    Ok(())
}

/// Puts a copy of the new part in the place of a predicate.
fn exchange_pred(alloc: Global, p: &mut Box<Pred>, new: SubTerm) -> Result<(), PlaceFault>
    ensures { IsPut (TermP (pred_tree p.old.value)) [] (sub_tree new.entry) (TermP (pred_tree p.new.value)) result }
{
    let SubTerm::P(new) = new else {
        return Err(PlaceFault::WrongKind);
    };
    let copied = copied_pred(alloc, new)?;
    *p = copied;
    Ok(())
}

/// Puts a copy of the new part in the place of a constant.
fn exchange_const(c: &mut Const, new: SubTerm) -> Result<(), PlaceFault>
    ensures { IsPut (TermC (const_tree c.old)) [] (sub_tree new.entry) (TermC (const_tree c.new)) result }
{
    let SubTerm::C(new) = new else {
        return Err(PlaceFault::WrongKind);
    };
    let copied = new.copy()?;
    *c = copied;
    Ok(())
}

/// Puts a copy of the new part at a path in a constant, which has no parts.
fn put_in_const(c: &mut Const, path: &[u8], new: SubTerm) -> Result<(), PlaceFault>
    ensures { IsPut (TermC (const_tree c.old)) path.now (sub_tree new.entry) (TermC (const_tree c.new)) result }
{
    match path.split_first() {
        Some(_) => Err(PlaceFault::NoSuchPath),
        None => exchange_const(c, new),
    }
}

/// Puts a copy of the new part at a path in a function.
#[cycle(put_in)]
fn put_in_fun(alloc: Global, f: &mut Box<Fun>, path: &[u8], new: SubTerm) -> Result<(), PlaceFault>
    ensures { IsPut (TermF (fun_tree f.old.value)) path.now (sub_tree new.entry) (TermF (fun_tree f.new.value)) result }
{
    match path.split_first() {
        Some((n, rest)) => put_below_fun(alloc, &mut **f, *n, rest, new),
        None => exchange_fun(alloc, f, new),
    }
}

/// Puts a copy of the new part at a path in a predicate.
#[cycle(put_in)]
fn put_in_pred(
    alloc: Global,
    p: &mut Box<Pred>,
    path: &[u8],
    new: SubTerm,
) -> Result<(), PlaceFault>
    ensures { IsPut (TermP (pred_tree p.old.value)) path.now (sub_tree new.entry)
        (TermP (pred_tree p.new.value)) result }
{
    match path.split_first() {
        Some((n, rest)) => put_below_pred(alloc, &mut **p, *n, rest, new),
        None => exchange_pred(alloc, p, new),
    }
}

/// Puts a copy of the new part at a path in the child of a function that has the number, counted from 1.
#[cycle(put_in)]
#[tactic(auto, using(crate::proofs::Replaced::among))]
fn put_below_fun(
    alloc: Global,
    f: &mut Fun,
    n: u8,
    rest: &[u8],
    new: SubTerm,
) -> Result<(), PlaceFault>
    ensures { IsPut (TermF (fun_tree f.old)) (n ∷ rest.now) (sub_tree new.entry) (TermF (fun_tree f.new)) result }
{
    match f {
        Fun::Comp(f, g) => return put_in_funs(alloc, f, g, n, rest, new),
        Fun::Pair(f, g) => return put_in_funs(alloc, f, g, n, rest, new),
        Fun::Times(f, g) => return put_in_funs(alloc, f, g, n, rest, new),
        Fun::K(c) => return put_in_only_const(c, n, rest, new),
        Fun::C(f, c) => return put_in_fun_or_const(alloc, f, c, n, rest, new),
        Fun::If(p, f, g) => return put_in_choice(alloc, p, f, g, n, rest, new),
        Fun::Iterate(p, f) => return put_in_pred_or_fun(alloc, p, f, n, rest, new),
        Fun::Iter(p, f) => return put_in_pred_or_fun(alloc, p, f, n, rest, new),
        Fun::Join(p, f) => return put_in_pred_or_fun(alloc, p, f, n, rest, new),
        Fun::Nest(f, g) => return put_in_funs(alloc, f, g, n, rest, new),
        Fun::Unnest(f, g) => return put_in_funs(alloc, f, g, n, rest, new),
        _ => return Err(PlaceFault::NoSuchPath),
    }
}

/// Puts a copy of the new part at a path in the child of a predicate that has the number, counted from 1.
#[cycle(put_in)]
#[tactic(auto, using(crate::proofs::Replaced::among))]
fn put_below_pred(
    alloc: Global,
    p: &mut Pred,
    n: u8,
    rest: &[u8],
    new: SubTerm,
) -> Result<(), PlaceFault>
    ensures { IsPut (TermP (pred_tree p.old)) (n ∷ rest.now) (sub_tree new.entry) (TermP (pred_tree p.new)) result }
{
    match p {
        Pred::At(p, f) => return put_in_pred_or_fun(alloc, p, f, n, rest, new),
        Pred::And(p, q) => return put_in_preds(alloc, p, q, n, rest, new),
        Pred::Or(p, q) => return put_in_preds(alloc, p, q, n, rest, new),
        Pred::Not(p) => return put_in_only_pred(alloc, p, n, rest, new),
        Pred::Inv(p) => return put_in_only_pred(alloc, p, n, rest, new),
        Pred::CP(p, c) => return put_in_pred_or_const(alloc, p, c, n, rest, new),
        Pred::Ex(p) => return put_in_only_pred(alloc, p, n, rest, new),
        Pred::Fa(p) => return put_in_only_pred(alloc, p, n, rest, new),
        _ => return Err(PlaceFault::NoSuchPath),
    }
}

/// The same of two functions that are the children.
#[cycle(put_in)]
#[tactic(auto, using(crate::proofs::Replaced::numbered))]
fn put_in_funs(
    alloc: Global,
    f: &mut Box<Fun>,
    g: &mut Box<Fun>,
    n: u8,
    rest: &[u8],
    new: SubTerm,
) -> Result<(), PlaceFault>
    ensures { IsPutAmong (TermF (fun_tree f.old.value) ∷ TermF (fun_tree g.old.value) ∷ []) n rest.now
        (sub_tree new.entry)
        (TermF (fun_tree f.new.value) ∷ TermF (fun_tree g.new.value) ∷ []) result }
{
    match n {
        1 => return put_in_fun(alloc, f, rest, new),
        2 => return put_in_fun(alloc, g, rest, new),
        _ => return Err(PlaceFault::NoSuchPath),
    }
}

/// The same of a function and a constant.
#[cycle(put_in)]
#[tactic(auto, using(crate::proofs::Replaced::numbered))]
fn put_in_fun_or_const(
    alloc: Global,
    f: &mut Box<Fun>,
    c: &mut Const,
    n: u8,
    rest: &[u8],
    new: SubTerm,
) -> Result<(), PlaceFault>
    ensures { IsPutAmong (TermF (fun_tree f.old.value) ∷ TermC (const_tree c.old) ∷ []) n rest.now (sub_tree new.entry)
        (TermF (fun_tree f.new.value) ∷ TermC (const_tree c.new) ∷ []) result }
{
    match n {
        1 => return put_in_fun(alloc, f, rest, new),
        2 => return put_in_const(c, rest, new),
        _ => return Err(PlaceFault::NoSuchPath),
    }
}

/// The same of a predicate and a function.
#[cycle(put_in)]
#[tactic(auto, using(crate::proofs::Replaced::numbered))]
fn put_in_pred_or_fun(
    alloc: Global,
    p: &mut Box<Pred>,
    f: &mut Box<Fun>,
    n: u8,
    rest: &[u8],
    new: SubTerm,
) -> Result<(), PlaceFault>
    ensures { IsPutAmong (TermP (pred_tree p.old.value) ∷ TermF (fun_tree f.old.value) ∷ []) n rest.now
        (sub_tree new.entry)
        (TermP (pred_tree p.new.value) ∷ TermF (fun_tree f.new.value) ∷ []) result }
{
    match n {
        1 => return put_in_pred(alloc, p, rest, new),
        2 => return put_in_fun(alloc, f, rest, new),
        _ => return Err(PlaceFault::NoSuchPath),
    }
}

/// The same of a predicate and two functions.
#[cycle(put_in)]
#[tactic(auto, using(crate::proofs::Replaced::numbered))]
fn put_in_choice(
    alloc: Global,
    p: &mut Box<Pred>,
    f: &mut Box<Fun>,
    g: &mut Box<Fun>,
    n: u8,
    rest: &[u8],
    new: SubTerm,
) -> Result<(), PlaceFault>
    ensures { IsPutAmong
        (TermP (pred_tree p.old.value) ∷ TermF (fun_tree f.old.value) ∷ TermF (fun_tree g.old.value) ∷ []) n rest.now
        (sub_tree new.entry)
        (TermP (pred_tree p.new.value) ∷ TermF (fun_tree f.new.value) ∷ TermF (fun_tree g.new.value) ∷ []) result }
{
    match n {
        1 => return put_in_pred(alloc, p, rest, new),
        2 => return put_in_fun(alloc, f, rest, new),
        3 => return put_in_fun(alloc, g, rest, new),
        _ => return Err(PlaceFault::NoSuchPath),
    }
}

/// The same of two predicates.
#[cycle(put_in)]
#[tactic(auto, using(crate::proofs::Replaced::numbered))]
fn put_in_preds(
    alloc: Global,
    p: &mut Box<Pred>,
    q: &mut Box<Pred>,
    n: u8,
    rest: &[u8],
    new: SubTerm,
) -> Result<(), PlaceFault>
    ensures { IsPutAmong (TermP (pred_tree p.old.value) ∷ TermP (pred_tree q.old.value) ∷ []) n rest.now
        (sub_tree new.entry)
        (TermP (pred_tree p.new.value) ∷ TermP (pred_tree q.new.value) ∷ []) result }
{
    match n {
        1 => return put_in_pred(alloc, p, rest, new),
        2 => return put_in_pred(alloc, q, rest, new),
        _ => return Err(PlaceFault::NoSuchPath),
    }
}

/// The same of a predicate and a constant.
#[cycle(put_in)]
#[tactic(auto, using(crate::proofs::Replaced::numbered))]
fn put_in_pred_or_const(
    alloc: Global,
    p: &mut Box<Pred>,
    c: &mut Const,
    n: u8,
    rest: &[u8],
    new: SubTerm,
) -> Result<(), PlaceFault>
    ensures { IsPutAmong (TermP (pred_tree p.old.value) ∷ TermC (const_tree c.old) ∷ []) n rest.now (sub_tree new.entry)
        (TermP (pred_tree p.new.value) ∷ TermC (const_tree c.new) ∷ []) result }
{
    match n {
        1 => return put_in_pred(alloc, p, rest, new),
        2 => return put_in_const(c, rest, new),
        _ => return Err(PlaceFault::NoSuchPath),
    }
}

/// The same of one predicate.
#[cycle(put_in)]
#[tactic(auto, using(crate::proofs::Replaced::numbered))]
fn put_in_only_pred(
    alloc: Global,
    p: &mut Box<Pred>,
    n: u8,
    rest: &[u8],
    new: SubTerm,
) -> Result<(), PlaceFault>
    ensures { IsPutAmong (TermP (pred_tree p.old.value) ∷ []) n rest.now (sub_tree new.entry)
        (TermP (pred_tree p.new.value) ∷ []) result }
{
    match n {
        1 => return put_in_pred(alloc, p, rest, new),
        _ => return Err(PlaceFault::NoSuchPath),
    }
}

/// The same of one constant.
#[tactic(auto, using(crate::proofs::Replaced::numbered))]
fn put_in_only_const(c: &mut Const, n: u8, rest: &[u8], new: SubTerm) -> Result<(), PlaceFault>
    ensures { IsPutAmong (TermC (const_tree c.old) ∷ []) n rest.now (sub_tree new.entry)
        (TermC (const_tree c.new) ∷ []) result }
{
    match n {
        1 => return put_in_const(c, rest, new),
        _ => return Err(PlaceFault::NoSuchPath),
    }
}

/// A copy of the new part, where it has the kind of the old one.
fn whole(t: SubTerm, new: SubTerm) -> Result<Term, PlaceFault>
    ensures { IsReplaced (sub_tree t.entry) [] (sub_tree new.entry) result }
{
    match (t, new) {
        (SubTerm::F(_), SubTerm::F(f)) => {
            let f = f.copy()?;
            Ok(Term::F(f))
        }
        (SubTerm::P(_), SubTerm::P(p)) => {
            let p = p.copy()?;
            Ok(Term::P(p))
        }
        (SubTerm::C(_), SubTerm::C(c)) => {
            let c = c.copy()?;
            Ok(Term::C(c))
        }
        _ => Err(PlaceFault::WrongKind),
    }
}

/// A copy of a function with the new part at a path in it.
fn fun_with(alloc: Global, f: &Fun, n: u8, rest: &[u8], new: SubTerm) -> Result<Term, PlaceFault>
    ensures { IsReplaced (TermF (fun_tree f.now)) (n ∷ rest.now) (sub_tree new.entry) result }
{
    let mut copied = copied_fun(alloc, f)?;
    put_below_fun(alloc, &mut *copied, n, rest, new)?;
    Ok(Term::F(Box::into_inner(copied)))
}

/// A copy of a predicate with the new part at a path in it.
fn pred_with(alloc: Global, p: &Pred, n: u8, rest: &[u8], new: SubTerm) -> Result<Term, PlaceFault>
    ensures { IsReplaced (TermP (pred_tree p.now)) (n ∷ rest.now) (sub_tree new.entry) result }
{
    let mut copied = copied_pred(alloc, p)?;
    put_below_pred(alloc, &mut *copied, n, rest, new)?;
    Ok(Term::P(Box::into_inner(copied)))
}

/// A copy of a part with the new part at a path in it.
fn replaced(alloc: Global, t: SubTerm, path: &[u8], new: SubTerm) -> Result<Term, PlaceFault>
    ensures { IsReplaced (sub_tree t.entry) path.now (sub_tree new.entry) result }
{
    let Some((n, rest)) = path.split_first() else {
        return whole(t, new);
    };
    match t {
        SubTerm::F(f) => fun_with(alloc, f, *n, rest, new),
        SubTerm::P(p) => pred_with(alloc, p, *n, rest, new),
        SubTerm::C(_) => Err(PlaceFault::NoSuchPath),
    }
}

/// A term with its part at a path replaced by a new one of the same kind. `NoSuchPath` comes exactly where the term has no
/// such path, `WrongKind` exactly where the part there has another kind than the new one, the whole term at the empty path.
/// It takes time and memory by the number of nodes of both terms, however long the path is.
pub fn replace_at(alloc: Global, t: &Term, path: &Path, new: &Term) -> Result<Term, PlaceFault>
    ensures replaced { IfOk result (λ b. put_in (term_tree t.now) path.now (term_tree new.now) ≡ Some (term_tree b)) }
    ensures no_such_path { UnlessMemory result ((result ≡ Err PlaceFault.NoSuchPath)
        ↔ (sub_at (term_tree t.now) path.now ≡ None)) }
    ensures wrong_kind { UnlessMemory result ((result ≡ Err PlaceFault.WrongKind)
        ↔ OtherKind (sub_at (term_tree t.now) path.now) (term_tree new.now)) }
{
    replaced(alloc, t.as_part(), path.as_slice(), new.as_part())
}

//! Terms made of their parts: one function for each constructor that has a part.

ghost use Rattle.std.specs.Prelude.{◌≡◌, IfOk};
ghost use Rattle.kola_term.specs.Terms.{FComp, FPair, FTimes, FC, FIf, FIterate, FIter, FJoin, FNest, FUnnest, PAt, PAnd, POr, PNot, PInv, PCP, PEx, PFa};
ghost use Rattle.kola_term.specs.TermView.{const_tree, fun_tree, pred_tree};

use crate::constant::Const;
use crate::term::{Fun, Pred};
use kola_core::Memory;
use std::alloc::Global;

/// Two values in boxes.
fn boxes<A: Drop, B: Drop>(alloc: Global, a: A, b: B) -> Result<(Box<A>, Box<B>), Memory>
    ensures { IfOk result (λ r. (r.0.value ≡ a) × (r.1.value ≡ b)) }
{
    let a = Box::new(alloc, a)?;
    let b = Box::new(alloc, b)?;
    Ok((a, b))
}

/// Three values in boxes.
fn three_boxes<A: Drop, B: Drop, C: Drop>(
    alloc: Global,
    a: A,
    b: B,
    c: C,
) -> Result<(Box<A>, Box<B>, Box<C>), Memory>
    ensures { IfOk result (λ r. (r.0.value ≡ a) × (r.1.value ≡ b) × (r.2.value ≡ c)) }
{
    let a = Box::new(alloc, a)?;
    let (b, c) = boxes(alloc, b, c)?;
    Ok((a, b, c))
}

/// `(f o g)`.
pub fn comp(alloc: Global, f: Fun, g: Fun) -> Result<Fun, Memory>
    ensures { IfOk result (λ r. fun_tree r ≡ FComp (fun_tree f) (fun_tree g)) }
{
    let (f, g) = boxes(alloc, f, g)?;
    Ok(Fun::Comp(f, g))
}

/// `<f, g>`.
pub fn pair(alloc: Global, f: Fun, g: Fun) -> Result<Fun, Memory>
    ensures { IfOk result (λ r. fun_tree r ≡ FPair (fun_tree f) (fun_tree g)) }
{
    let (f, g) = boxes(alloc, f, g)?;
    Ok(Fun::Pair(f, g))
}

/// `(f * g)`.
pub fn times(alloc: Global, f: Fun, g: Fun) -> Result<Fun, Memory>
    ensures { IfOk result (λ r. fun_tree r ≡ FTimes (fun_tree f) (fun_tree g)) }
{
    let (f, g) = boxes(alloc, f, g)?;
    Ok(Fun::Times(f, g))
}

/// `nest(f, g)`.
pub fn nest(alloc: Global, f: Fun, g: Fun) -> Result<Fun, Memory>
    ensures { IfOk result (λ r. fun_tree r ≡ FNest (fun_tree f) (fun_tree g)) }
{
    let (f, g) = boxes(alloc, f, g)?;
    Ok(Fun::Nest(f, g))
}

/// `unnest(f, g)`.
pub fn unnest(alloc: Global, f: Fun, g: Fun) -> Result<Fun, Memory>
    ensures { IfOk result (λ r. fun_tree r ≡ FUnnest (fun_tree f) (fun_tree g)) }
{
    let (f, g) = boxes(alloc, f, g)?;
    Ok(Fun::Unnest(f, g))
}

/// `iterate(p, f)`.
pub fn iterate(alloc: Global, p: Pred, f: Fun) -> Result<Fun, Memory>
    ensures { IfOk result (λ r. fun_tree r ≡ FIterate (pred_tree p) (fun_tree f)) }
{
    let (p, f) = boxes(alloc, p, f)?;
    Ok(Fun::Iterate(p, f))
}

/// `iter(p, f)`.
pub fn iter(alloc: Global, p: Pred, f: Fun) -> Result<Fun, Memory>
    ensures { IfOk result (λ r. fun_tree r ≡ FIter (pred_tree p) (fun_tree f)) }
{
    let (p, f) = boxes(alloc, p, f)?;
    Ok(Fun::Iter(p, f))
}

/// `join(p, f)`.
pub fn join(alloc: Global, p: Pred, f: Fun) -> Result<Fun, Memory>
    ensures { IfOk result (λ r. fun_tree r ≡ FJoin (pred_tree p) (fun_tree f)) }
{
    let (p, f) = boxes(alloc, p, f)?;
    Ok(Fun::Join(p, f))
}

/// `if(p, f, g)`.
pub fn choice(alloc: Global, p: Pred, f: Fun, g: Fun) -> Result<Fun, Memory>
    ensures { IfOk result (λ r. fun_tree r ≡ FIf (pred_tree p) (fun_tree f) (fun_tree g)) }
{
    let (p, f, g) = three_boxes(alloc, p, f, g)?;
    Ok(Fun::If(p, f, g))
}

/// `C(f, c)`.
pub fn partial(alloc: Global, f: Fun, c: Const) -> Result<Fun, Memory>
    ensures { IfOk result (λ r. fun_tree r ≡ FC (fun_tree f) (const_tree c)) }
{
    let f = Box::new(alloc, f)?;
    Ok(Fun::C(f, c))
}

/// `(p @ f)`.
pub fn at(alloc: Global, p: Pred, f: Fun) -> Result<Pred, Memory>
    ensures { IfOk result (λ r. pred_tree r ≡ PAt (pred_tree p) (fun_tree f)) }
{
    let (p, f) = boxes(alloc, p, f)?;
    Ok(Pred::At(p, f))
}

/// `(p & q)`.
pub fn and(alloc: Global, p: Pred, q: Pred) -> Result<Pred, Memory>
    ensures { IfOk result (λ r. pred_tree r ≡ PAnd (pred_tree p) (pred_tree q)) }
{
    let (p, q) = boxes(alloc, p, q)?;
    Ok(Pred::And(p, q))
}

/// `(p | q)`.
pub fn or(alloc: Global, p: Pred, q: Pred) -> Result<Pred, Memory>
    ensures { IfOk result (λ r. pred_tree r ≡ POr (pred_tree p) (pred_tree q)) }
{
    let (p, q) = boxes(alloc, p, q)?;
    Ok(Pred::Or(p, q))
}

/// `~p`.
pub fn not(alloc: Global, p: Pred) -> Result<Pred, Memory>
    ensures { IfOk result (λ r. pred_tree r ≡ PNot (pred_tree p)) }
{
    let p = Box::new(alloc, p)?;
    Ok(Pred::Not(p))
}

/// `inv(p)`.
pub fn inverse(alloc: Global, p: Pred) -> Result<Pred, Memory>
    ensures { IfOk result (λ r. pred_tree r ≡ PInv (pred_tree p)) }
{
    let p = Box::new(alloc, p)?;
    Ok(Pred::Inv(p))
}

/// `CP(p, c)`.
pub fn partial_pred(alloc: Global, p: Pred, c: Const) -> Result<Pred, Memory>
    ensures { IfOk result (λ r. pred_tree r ≡ PCP (pred_tree p) (const_tree c)) }
{
    let p = Box::new(alloc, p)?;
    Ok(Pred::CP(p, c))
}

/// `ex(p)`.
pub fn some(alloc: Global, p: Pred) -> Result<Pred, Memory>
    ensures { IfOk result (λ r. pred_tree r ≡ PEx (pred_tree p)) }
{
    let p = Box::new(alloc, p)?;
    Ok(Pred::Ex(p))
}

/// `fa(p)`.
pub fn each(alloc: Global, p: Pred) -> Result<Pred, Memory>
    ensures { IfOk result (λ r. pred_tree r ≡ PFa (pred_tree p)) }
{
    let p = Box::new(alloc, p)?;
    Ok(Pred::Fa(p))
}

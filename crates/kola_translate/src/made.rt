//! Parts of a translation with their depths. Each is counted before it is made, and none is made past a limit.

ghost use Rattle.std.specs.Prelude.{◌≡◌, ◌+◌, ◌*◌, IfOk, max, true};
ghost use Rattle.kola_term.specs.Terms.{CBool, CExtent, FId, FFst, FSnd, FFlat, FAttr, FComp, FPair, FK, FIter, PEq, PAt, PNot, PKP};
ghost use Rattle.kola_term.specs.TermView.{const_tree, fun_tree, pred_tree};
ghost use Rattle.kola_translate.specs.Translation.{Function, Test, variable, compare_term, over};
ghost use Rattle.kola_translate.specs.Building.{charged, node, function_of, predicate_of, and_built, or_built, leaf_built, comp_built, pair_built, op_built, compare_nodes, compare_levels, compare_built, quantified_built, last_built, more_built};
ghost use Rattle.kola_translate.specs.Parts.{Builds, fun_view, pred_view, part_view, op_tree, comparison_tree, quantifier_tree};

use crate::fault::TranslateFault;
use kola_core::{Memory, Name};
use kola_term::{Const, Fun, Pred};
use oql_tree::Sign;
use std::alloc::Global;

/// The most nodes of a term.
const NODES: u32 = 20_000;

/// The greatest depth of a term.
const DEPTH: u32 = 256;

/// A function with its depth.
#[derive(Drop)]
pub(crate) struct MadeFun {
    pub(crate) fun: Box<Fun>,
    pub(crate) depth: u32,
}

/// A predicate with its depth.
#[derive(Drop)]
pub(crate) struct MadePred {
    pub(crate) pred: Box<Pred>,
    pub(crate) depth: u32,
}

/// What a part of a query is translated to. Of a truth value nothing is made until it is known what it stands for.
#[derive(Drop)]
pub(crate) enum Part {
    Function(MadeFun),
    Test(MadePred),
    Truth(bool),
}

/// The operations on two sets.
#[derive(Clone, Copy)]
pub(crate) enum SetOp {
    Union,
    Intersect,
    Except,
}

/// Counts nodes and the levels above a depth, which is answered with them.
pub(crate) fn charge(
    made: &mut u32,
    nodes: u32,
    levels: u32,
    below: u32,
) -> Result<u32, TranslateFault>
    ensures { Builds (λ d. d) result made.new (charged nodes levels below made.old) }
{
    let all = made.saturating_add(nodes);
    let depth = levels.saturating_add(below);
    if all > NODES || depth > DEPTH {
        return Err(TranslateFault::TooLarge);
    }
    *made = all;
    Ok(depth)
}

fn boxed(alloc: Global, f: Fun) -> Result<Box<Fun>, Memory>
    ensures { IfOk result (λ b. b.value ≡ f) }
{
    let boxed = Box::new(alloc, f)?;
    Ok(boxed)
}

fn boxed_pred(alloc: Global, p: Pred) -> Result<Box<Pred>, Memory>
    ensures { IfOk result (λ b. b.value ≡ p) }
{
    let boxed = Box::new(alloc, p)?;
    Ok(boxed)
}

// ---- leaves

/// `K(c)` of the extent of a name.
pub(crate) fn extent(alloc: Global, made: &mut u32, x: &Name) -> Result<MadeFun, TranslateFault>
    ensures { Builds fun_view result made.new (node (FK (CExtent x.now)) 2 2 0 made.old) }
{
    let depth = charge(made, 2, 2, 0)?;
    let name = x.copy()?;
    let fun = boxed(alloc, Fun::K(Const::Extent(name)))?;
    Ok(MadeFun { fun, depth })
}

/// `KP(true)` or `KP(false)`.
pub(crate) fn always(alloc: Global, made: &mut u32, b: bool) -> Result<MadePred, TranslateFault>
    ensures { Builds pred_view result made.new (node (PKP b) 1 1 0 made.old) }
{
    let depth = charge(made, 1, 1, 0)?;
    let pred = boxed_pred(alloc, Pred::KP(b))?;
    Ok(MadePred { pred, depth })
}

/// `K(c)`.
pub(crate) fn constant(alloc: Global, made: &mut u32, c: Const) -> Result<MadeFun, TranslateFault>
    ensures { Builds fun_view result made.new (node (FK (const_tree c)) 2 2 0 made.old) }
{
    let depth = charge(made, 2, 2, 0)?;
    let fun = boxed(alloc, Fun::K(c))?;
    Ok(MadeFun { fun, depth })
}

/// `K(true)` or `K(false)`, not yet counted.
fn bool_constant(alloc: Global, b: bool) -> Result<Box<Fun>, Memory>
    ensures { IfOk result (λ f. fun_tree f.value ≡ FK (CBool b)) }
{
    boxed(alloc, Fun::K(Const::Bool(b)))
}

fn snd(alloc: Global) -> Result<Box<Fun>, Memory>
    ensures { IfOk result (λ f. fun_tree f.value ≡ FSnd) }
{
    boxed(alloc, Fun::Snd)
}

/// The variable with so many newer ones, not yet counted.
fn variable_term(alloc: Global, newer: u32) -> Result<Box<Fun>, Memory>
    ensures { IfOk result (λ f. fun_tree f.value ≡ variable newer) }
{
    let mut fun = snd(alloc)?;
    for _k in 0..newer {
        let fst = boxed(alloc, Fun::Fst)?;
        fun = boxed(alloc, Fun::Comp(fun, fst))?;
    }
    Ok(fun)
}

/// The variable with so many newer ones.
pub(crate) fn variable(
    alloc: Global,
    made: &mut u32,
    newer: usize,
) -> Result<MadeFun, TranslateFault>
    ensures { Builds fun_view result made.new (node (variable newer) (1 + 2 * newer) (1 + newer) 0 made.old) }
{
    if newer >= 256 {
        return Err(TranslateFault::TooLarge);
    }
    let newer = newer as u32;
    let depth = charge(made, 1 + 2 * newer, 1 + newer, 0)?;
    let fun = variable_term(alloc, newer)?;
    Ok(MadeFun { fun, depth })
}

// ---- what a part stands for

/// `if(p, K(true), K(false))`.
fn choice(alloc: Global, made: &mut u32, p: MadePred) -> Result<MadeFun, TranslateFault>
    ensures { Builds fun_view result made.new (function_of (Test (pred_view p).0) p.depth made.old) }
{
    let depth = charge(made, 5, 1, p.depth.max(2))?;
    let yes = bool_constant(alloc, true)?;
    let no = bool_constant(alloc, false)?;
    let fun = boxed(alloc, Fun::If(p.pred, yes, no))?;
    Ok(MadeFun { fun, depth })
}

fn constant_truth(alloc: Global, made: &mut u32, b: bool) -> Result<MadeFun, TranslateFault>
    ensures { Builds fun_view result made.new (node (FK (CBool b)) 2 2 0 made.old) }
{
    let depth = charge(made, 2, 2, 0)?;
    let fun = bool_constant(alloc, b)?;
    Ok(MadeFun { fun, depth })
}

/// The part as a function.
pub(crate) fn as_function(alloc: Global, made: &mut u32, x: Part) -> Result<MadeFun, TranslateFault>
    ensures { Builds fun_view result made.new (function_of (part_view x).0 (part_view x).1 made.old) }
{
    match x {
        Part::Function(f) => Ok(f),
        Part::Test(p) => choice(alloc, made, p),
        Part::Truth(b) => constant_truth(alloc, made, b),
    }
}

/// `(eq @ <f, K(true)>)`.
fn truth_test(alloc: Global, made: &mut u32, f: MadeFun) -> Result<MadePred, TranslateFault>
    ensures { Builds pred_view result made.new (predicate_of (Function (fun_view f).0) f.depth made.old) }
{
    let depth = charge(made, 5, 2, f.depth.max(2))?;
    let yes = bool_constant(alloc, true)?;
    let pred = tested(alloc, Comparison::Eq, f.fun, yes)?;
    Ok(MadePred { pred, depth })
}

/// The part as a predicate.
pub(crate) fn as_predicate(
    alloc: Global,
    made: &mut u32,
    x: Part,
) -> Result<MadePred, TranslateFault>
    ensures { Builds pred_view result made.new (predicate_of (part_view x).0 (part_view x).1 made.old) }
{
    match x {
        Part::Function(f) => truth_test(alloc, made, f),
        Part::Test(p) => Ok(p),
        Part::Truth(b) => always(alloc, made, b),
    }
}

// ---- functions

/// `(flat o f)`.
pub(crate) fn flat(alloc: Global, made: &mut u32, f: MadeFun) -> Result<MadeFun, TranslateFault>
    ensures { Builds fun_view result made.new (leaf_built FFlat (fun_view f) made.old) }
{
    let depth = charge(made, 2, 1, 1u32.max(f.depth))?;
    let leaf = boxed(alloc, Fun::Flat)?;
    let fun = boxed(alloc, Fun::Comp(leaf, f.fun))?;
    Ok(MadeFun { fun, depth })
}

fn attribute_leaf(alloc: Global, a: &Name) -> Result<Box<Fun>, Memory>
    ensures { IfOk result (λ f. fun_tree f.value ≡ FAttr a.now) }
{
    let name = a.copy()?;
    boxed(alloc, Fun::Attr(name))
}

/// `(.a o f)`.
pub(crate) fn attribute(
    alloc: Global,
    made: &mut u32,
    a: &Name,
    f: MadeFun,
) -> Result<MadeFun, TranslateFault>
    ensures { Builds fun_view result made.new (leaf_built (FAttr a.now) (fun_view f) made.old) }
{
    let depth = charge(made, 2, 1, 1u32.max(f.depth))?;
    let leaf = attribute_leaf(alloc, a)?;
    let fun = boxed(alloc, Fun::Comp(leaf, f.fun))?;
    Ok(MadeFun { fun, depth })
}

/// `(f o g)`.
pub(crate) fn comp(
    alloc: Global,
    made: &mut u32,
    f: MadeFun,
    g: MadeFun,
) -> Result<MadeFun, TranslateFault>
    ensures { Builds fun_view result made.new (comp_built (fun_view f) (fun_view g) made.old) }
{
    let depth = charge(made, 1, 1, f.depth.max(g.depth))?;
    let fun = boxed(alloc, Fun::Comp(f.fun, g.fun))?;
    Ok(MadeFun { fun, depth })
}

/// `<f, g>`.
pub(crate) fn pair(
    alloc: Global,
    made: &mut u32,
    f: MadeFun,
    g: MadeFun,
) -> Result<MadeFun, TranslateFault>
    ensures { Builds fun_view result made.new (pair_built (fun_view f) (fun_view g) made.old) }
{
    let depth = charge(made, 1, 1, f.depth.max(g.depth))?;
    let fun = boxed(alloc, Fun::Pair(f.fun, g.fun))?;
    Ok(MadeFun { fun, depth })
}

fn op_leaf(alloc: Global, op: SetOp) -> Result<Box<Fun>, Memory>
    ensures { IfOk result (λ f. fun_tree f.value ≡ op_tree op) }
{
    match op {
        SetOp::Union => boxed(alloc, Fun::Union),
        SetOp::Intersect => boxed(alloc, Fun::Isect),
        SetOp::Except => boxed(alloc, Fun::Minus),
    }
}

/// `(union o <f, g>)`, and the same with the other operations.
pub(crate) fn set_op(
    alloc: Global,
    made: &mut u32,
    op: SetOp,
    f: MadeFun,
    g: MadeFun,
) -> Result<MadeFun, TranslateFault>
    ensures { Builds fun_view result made.new (op_built (op_tree op) (fun_view f) (fun_view g) made.old) }
{
    let depth = charge(made, 3, 2, f.depth.max(g.depth))?;
    let both = boxed(alloc, Fun::Pair(f.fun, g.fun))?;
    let leaf = op_leaf(alloc, op)?;
    let fun = boxed(alloc, Fun::Comp(leaf, both))?;
    Ok(MadeFun { fun, depth })
}

// ---- predicates

/// The predicates that compare.
#[derive(Clone, Copy)]
pub(crate) enum Comparison {
    Eq,
    Lt,
    Le,
    Member,
}

fn comparison_leaf(alloc: Global, c: Comparison) -> Result<Box<Pred>, Memory>
    ensures { IfOk result (λ p. pred_tree p.value ≡ comparison_tree c) }
{
    match c {
        Comparison::Eq => boxed_pred(alloc, Pred::Eq),
        Comparison::Lt => boxed_pred(alloc, Pred::Lt),
        Comparison::Le => boxed_pred(alloc, Pred::Le),
        Comparison::Member => boxed_pred(alloc, Pred::Member),
    }
}

/// `(eq @ <f, g>)`, and the same with the other comparisons, not yet counted.
fn tested(alloc: Global, c: Comparison, f: Box<Fun>, g: Box<Fun>) -> Result<Box<Pred>, Memory>
    ensures { IfOk result (λ p. pred_tree p.value
        ≡ PAt (comparison_tree c) (FPair (fun_tree f.value) (fun_tree g.value))) }
{
    let both = boxed(alloc, Fun::Pair(f, g))?;
    let leaf = comparison_leaf(alloc, c)?;
    boxed_pred(alloc, Pred::At(leaf, both))
}

fn differ(alloc: Global, f: Box<Fun>, g: Box<Fun>) -> Result<Box<Pred>, Memory>
    ensures { IfOk result (λ p. pred_tree p.value
        ≡ PNot (PAt PEq (FPair (fun_tree f.value) (fun_tree g.value)))) }
{
    let same = tested(alloc, Comparison::Eq, f, g)?;
    boxed_pred(alloc, Pred::Not(same))
}

fn compared(alloc: Global, sign: Sign, f: Box<Fun>, g: Box<Fun>) -> Result<Box<Pred>, Memory>
    ensures { IfOk result (λ p. pred_tree p.value ≡ compare_term sign (fun_tree f.value) (fun_tree g.value)) }
{
    match sign {
        Sign::Eq => tested(alloc, Comparison::Eq, f, g),
        Sign::Ne => differ(alloc, f, g),
        Sign::Lt => tested(alloc, Comparison::Lt, f, g),
        Sign::Le => tested(alloc, Comparison::Le, f, g),
        Sign::Gt => tested(alloc, Comparison::Lt, g, f),
        Sign::Ge => tested(alloc, Comparison::Le, g, f),
        Sign::Member => tested(alloc, Comparison::Member, f, g),
    }
}

fn sign_nodes(sign: Sign) -> u32
    ensures { result ≡ compare_nodes sign }
{
    match sign {
        Sign::Ne => 4,
        _ => 3,
    }
}

fn sign_levels(sign: Sign) -> u32
    ensures { result ≡ compare_levels sign }
{
    match sign {
        Sign::Ne => 3,
        _ => 2,
    }
}

/// The comparison of two functions.
pub(crate) fn compare(
    alloc: Global,
    made: &mut u32,
    sign: Sign,
    f: MadeFun,
    g: MadeFun,
) -> Result<MadePred, TranslateFault>
    ensures { Builds pred_view result made.new (compare_built sign (fun_view f) (fun_view g) made.old) }
{
    let below = f.depth.max(g.depth);
    let depth = charge(made, sign_nodes(sign), sign_levels(sign), below)?;
    let pred = compared(alloc, sign, f.fun, g.fun)?;
    Ok(MadePred { pred, depth })
}

/// `(p & q)`.
pub(crate) fn and(
    alloc: Global,
    made: &mut u32,
    p: MadePred,
    q: MadePred,
) -> Result<MadePred, TranslateFault>
    ensures { Builds pred_view result made.new
        (and_built (pred_view p) (pred_view q) made.old) }
{
    let depth = charge(made, 1, 1, p.depth.max(q.depth))?;
    let pred = boxed_pred(alloc, Pred::And(p.pred, q.pred))?;
    Ok(MadePred { pred, depth })
}

/// `(p | q)`.
pub(crate) fn or(
    alloc: Global,
    made: &mut u32,
    p: MadePred,
    q: MadePred,
) -> Result<MadePred, TranslateFault>
    ensures { Builds pred_view result made.new
        (or_built (pred_view p) (pred_view q) made.old) }
{
    let depth = charge(made, 1, 1, p.depth.max(q.depth))?;
    let pred = boxed_pred(alloc, Pred::Or(p.pred, q.pred))?;
    Ok(MadePred { pred, depth })
}

/// `~p`.
pub(crate) fn negated(
    alloc: Global,
    made: &mut u32,
    p: MadePred,
) -> Result<MadePred, TranslateFault>
    ensures { Builds pred_view result made.new (node (PNot (pred_view p).0) 1 1 p.depth made.old) }
{
    let depth = charge(made, 1, 1, p.depth)?;
    let pred = boxed_pred(alloc, Pred::Not(p.pred))?;
    Ok(MadePred { pred, depth })
}

// ---- ranges

/// `<id, r>`, not yet counted.
fn beside(alloc: Global, r: Box<Fun>) -> Result<Box<Fun>, Memory>
    ensures { IfOk result (λ f. fun_tree f.value ≡ FPair FId (fun_tree r.value)) }
{
    let id = boxed(alloc, Fun::Id)?;
    boxed(alloc, Fun::Pair(id, r))
}

fn quantifier(alloc: Global, each: bool, p: Box<Pred>) -> Result<Box<Pred>, Memory>
    ensures { IfOk result (λ q. pred_tree q.value ≡ quantifier_tree each (pred_tree p.value)) }
{
    if each {
        boxed_pred(alloc, Pred::Fa(p))
    } else {
        boxed_pred(alloc, Pred::Ex(p))
    }
}

/// `(ex(p) @ <id, r>)`, or where `each` is true `(fa(p) @ <id, r>)`.
pub(crate) fn quantified(
    alloc: Global,
    made: &mut u32,
    each: bool,
    p: MadePred,
    r: MadeFun,
) -> Result<MadePred, TranslateFault>
    ensures { Builds pred_view result made.new
        (quantified_built (quantifier_tree each) (pred_view p) (fun_view r) made.old) }
{
    let depth = charge(made, 4, 2, p.depth.max(1u32.max(r.depth)))?;
    let members = beside(alloc, r.fun)?;
    let test = quantifier(alloc, each, p.pred)?;
    let pred = boxed_pred(alloc, Pred::At(test, members))?;
    Ok(MadePred { pred, depth })
}

/// `(iter(p, h) o <id, r>)`, not yet counted.
fn iterated(alloc: Global, p: Box<Pred>, h: Box<Fun>, r: Box<Fun>) -> Result<Box<Fun>, Memory>
    ensures { IfOk result (λ f. fun_tree f.value
        ≡ over (FIter (pred_tree p.value) (fun_tree h.value)) (fun_tree r.value)) }
{
    let members = beside(alloc, r)?;
    let each = boxed(alloc, Fun::Iter(p, h))?;
    boxed(alloc, Fun::Comp(each, members))
}

/// The last range of a select, with its condition and its head.
pub(crate) fn last(
    alloc: Global,
    made: &mut u32,
    p: MadePred,
    h: MadeFun,
    r: MadeFun,
) -> Result<MadeFun, TranslateFault>
    ensures { Builds fun_view result made.new (last_built (pred_view p) (fun_view h) (fun_view r) made.old) }
{
    let below = p.depth.max(h.depth).max(1u32.max(r.depth));
    let depth = charge(made, 4, 2, below)?;
    let fun = iterated(alloc, p.pred, h.fun, r.fun)?;
    Ok(MadeFun { fun, depth })
}

fn always_iterated(alloc: Global, h: Box<Fun>, r: Box<Fun>) -> Result<Box<Fun>, Memory>
    ensures { IfOk result (λ f. fun_tree f.value ≡ over (FIter (PKP true) (fun_tree h.value)) (fun_tree r.value)) }
{
    let p = boxed_pred(alloc, Pred::KP(true))?;
    iterated(alloc, p, h, r)
}

/// A range before others, with the select over these. Its own seven nodes are counted already.
pub(crate) fn more(
    alloc: Global,
    made: &mut u32,
    rest: MadeFun,
    r: MadeFun,
) -> Result<MadeFun, TranslateFault>
    ensures { Builds fun_view result made.new (more_built (fun_view rest) (fun_view r) made.old) }
{
    let below = 1u32.max(rest.depth).max(1u32.max(r.depth));
    let depth = charge(made, 0, 3, below)?;
    let sets = always_iterated(alloc, rest.fun, r.fun)?;
    let flat = boxed(alloc, Fun::Flat)?;
    let fun = boxed(alloc, Fun::Comp(flat, sets))?;
    Ok(MadeFun { fun, depth })
}

// ---- fields

/// `fst`.
pub(crate) fn first_field(alloc: Global, made: &mut u32) -> Result<MadeFun, TranslateFault>
    ensures { Builds fun_view result made.new (node FFst 1 1 0 made.old) }
{
    let depth = charge(made, 1, 1, 0)?;
    let fun = boxed(alloc, Fun::Fst)?;
    Ok(MadeFun { fun, depth })
}

/// `snd`.
pub(crate) fn last_field(alloc: Global, made: &mut u32) -> Result<MadeFun, TranslateFault>
    ensures { Builds fun_view result made.new (node FSnd 1 1 0 made.old) }
{
    let depth = charge(made, 1, 1, 0)?;
    let fun = snd(alloc)?;
    Ok(MadeFun { fun, depth })
}

/// `(s o snd)`: a field of the rest.
pub(crate) fn later_field(
    alloc: Global,
    made: &mut u32,
    s: MadeFun,
) -> Result<MadeFun, TranslateFault>
    ensures { Builds fun_view result made.new (node (FComp (fun_view s).0 FSnd) 2 1 (max s.depth 1) made.old) }
{
    let depth = charge(made, 2, 1, s.depth.max(1))?;
    let rest = snd(alloc)?;
    let fun = boxed(alloc, Fun::Comp(s.fun, rest))?;
    Ok(MadeFun { fun, depth })
}

/// `id`, which stands where there is nothing to translate.
pub(crate) fn nothing(alloc: Global, made: &mut u32) -> Result<MadeFun, TranslateFault>
    ensures { Builds fun_view result made.new (node FId 1 1 0 made.old) }
{
    let depth = charge(made, 1, 1, 0)?;
    let fun = boxed(alloc, Fun::Id)?;
    Ok(MadeFun { fun, depth })
}

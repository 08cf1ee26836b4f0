//! The parts of a query, translated with their types.

ghost use Rattle.std.specs.Prelude.{◌≡◌, ◌++◌, [], ◌∷◌, true, nat_le, map, IfOk, OnOk};
ghost use Rattle.kola_values.specs.Types.{TBool, TStruct, TEnd, type_fields, of_type_fields};
ghost use Rattle.oql_tree.specs.QueryTrees.{QCompare, QSelect, of_links, of_set_links, of_fields, of_ranges};
ghost use Rattle.oql_tree.specs.QueryViews.{query_tree, link_entry, set_link_entry, named_entry, where_of};
ghost use Rattle.kola_term.specs.Terms.{FId, FFlat, PKP, PEx};
ghost use Rattle.kola_term.specs.Limits.{depth_limit};
ghost use Rattle.kola_translate.specs.Translation.{Test, type_of_members, type_of_path, type_of, types_of, scope_behind};
ghost use Rattle.kola_translate.specs.Building.{and_then, as_function_part, as_test_part, op_built, set_link_op, last_built, range_count, node, function_of, predicate_of, leaf_built, quantified_built, path_built, range_built, build, sets_built, tests_built, set_links_built, fields_built, ranges_built, where_built};
ghost use Rattle.kola_translate.specs.Parts.{Builds, fun_view, pred_view, part_view, connective_built, quantifier_tree};

use crate::fault::TranslateFault;
use crate::leaf::{literal, name, set};
use crate::made::{
    MadeFun, MadePred, Part, SetOp, always, and, as_function, as_predicate, charge, compare, flat,
    last, more, negated, nothing, or, pair, quantified, set_op,
};
use crate::path::path;
use crate::scope::Scope;
use kola_core::{Memory, Name};
use kola_schema::Schema;
use kola_values::{BoxedTy, Fields, Ty};
use oql_tree::{BoxedExpr, Chain, Expr, Form, Labels, Ranges, Sign, StructList};
use std::alloc::Global;

/// The greatest depth of a term.
const LEVELS: usize = 256;

// ---- forms of the terms of their parts

fn bool_type(alloc: Global) -> Result<BoxedTy, Memory>
    ensures { IfOk result (λ t. t ≡ TBool) }
{
    BoxedTy::new(alloc, Ty::Bool)
}

fn member_type(alloc: Global, t: BoxedTy) -> Result<BoxedTy, Memory>
    ensures { IfOk result (λ m. m ≡ type_of_members t) }
{
    match t.into_inner() {
        Ty::Set(member) => Ok(member),
        _ => BoxedTy::new(alloc, Ty::Unit),
    }
}

fn walked(
    alloc: Global,
    schema: &Schema,
    made: &mut u32,
    t: BoxedTy,
    f: MadeFun,
    labels: &Labels,
) -> Result<(Part, BoxedTy), TranslateFault>
    ensures built { Builds (λ r. part_view r.0) result made.new
        (as_function_part (path_built schema.now t (fun_view f) labels.now made.old)) }
    ensures ty { IfOk result (λ r. r.1 ≡ type_of_path schema.now t labels.now) }
{
    let (f, ty) = path(alloc, schema, made, t.get(), f, labels.as_slice())?;
    Ok((Part::Function(f), ty))
}

fn flattened(
    alloc: Global,
    made: &mut u32,
    f: MadeFun,
    t: BoxedTy,
) -> Result<(Part, BoxedTy), TranslateFault>
    ensures built { Builds (λ r. part_view r.0) result made.new
        (as_function_part (leaf_built FFlat (fun_view f) made.old)) }
    ensures ty { IfOk result (λ r. r.1 ≡ type_of_members t) }
{
    let ty = member_type(alloc, t)?;
    let f = flat(alloc, made, f)?;
    Ok((Part::Function(f), ty))
}

fn test(alloc: Global, p: MadePred) -> Result<(Part, BoxedTy), Memory>
    ensures { IfOk result (λ r. (part_view r.0 ≡ (Test (pred_view p).0, p.depth)) × (r.1 ≡ TBool)) }
{
    let ty = bool_type(alloc)?;
    Ok((Part::Test(p), ty))
}

fn some_member(alloc: Global, made: &mut u32, r: MadeFun) -> Result<MadePred, TranslateFault>
    ensures { Builds pred_view result made.new
        (and_then (node (PKP true) 1 1 0 made.old) (λ p k. quantified_built PEx p (fun_view r) k)) }
{
    let p = always(alloc, made, true)?;
    quantified(alloc, made, false, p, r)
}

/// `(p | q)` where `or` is true, and `(p & q)` else.
fn connected(
    alloc: Global,
    made: &mut u32,
    is_or: bool,
    p: MadePred,
    q: MadePred,
) -> Result<MadePred, TranslateFault>
    ensures { Builds pred_view result made.new (connective_built is_or (pred_view p) (pred_view q) made.old) }
{
    if is_or {
        or(alloc, made, p, q)
    } else {
        and(alloc, made, p, q)
    }
}

/// `except` where it is true, and `union` else.
fn set_link(
    alloc: Global,
    made: &mut u32,
    except: bool,
    f: MadeFun,
    g: MadeFun,
) -> Result<MadeFun, TranslateFault>
    ensures { Builds fun_view result made.new (op_built (set_link_op except) (fun_view f) (fun_view g) made.old) }
{
    if except {
        set_op(alloc, made, SetOp::Except, f, g)
    } else {
        set_op(alloc, made, SetOp::Union, f, g)
    }
}

fn push_field(types: &mut Fields, label: &Name, t: BoxedTy) -> Result<(), Memory>
    ensures { OnOk result (types.new ≡ types.old ++ (label.now, t) ∷ []) }
{
    let label = label.copy()?;
    types.push((label, t.into_inner()))
}

fn struct_type(alloc: Global, types: Fields) -> Result<BoxedTy, Memory>
    ensures { IfOk result (λ t. t ≡ TStruct (of_type_fields types)) }
{
    BoxedTy::new(alloc, Ty::Struct(types))
}

fn no_fields(alloc: Global, made: &mut u32) -> Result<(Part, BoxedTy), TranslateFault>
    ensures built { Builds (λ r. part_view r.0) result made.new (as_function_part (node FId 1 1 0 made.old)) }
    ensures ty { IfOk result (λ r. r.1 ≡ TStruct TEnd) }
{
    let ty = struct_type(alloc, Fields::new(alloc))?;
    let f = nothing(alloc, made)?;
    Ok((Part::Function(f), ty))
}

/// Whether a select has no more ranges than a term has levels.
#[tactic(auto, using(crate::proofs::RangeCounts::few_by_length))]
fn are_few(ranges: &Ranges) -> bool
    ensures { result ≡ nat_le (range_count (of_ranges ranges.now)) depth_limit }
{
    ranges.as_slice().len() <= LEVELS
}

fn bind(alloc: Global, scope: &mut Scope, x: &Name, t: BoxedTy) -> Result<(), Memory>
    ensures { OnOk result (scope.new ≡ (x.now, type_of_members t) ∷ scope.old) }
{
    let member = member_type(alloc, t)?;
    let x = x.copy()?;
    scope.bind(x, member)
}

// ---- expressions

/// What an expression is translated to, and its type.
#[cycle(terms)]
fn part_of(
    alloc: Global,
    schema: &Schema,
    scope: &mut Scope,
    made: &mut u32,
    e: &Expr,
) -> Result<(Part, BoxedTy), TranslateFault>
    ensures built { Builds (λ r. part_view r.0) result made.new
        (build schema.now scope.old (query_tree e.now) made.old) }
    ensures ty { IfOk result (λ r. r.1 ≡ type_of schema.now scope.old (query_tree e.now)) }
    ensures kept { OnOk result (scope.new ≡ scope.old) }
{
    match &e.form {
        Form::Name(x) => name(alloc, schema, scope, made, x),
        Form::Literal(l) => literal(alloc, made, l),
        Form::SetOf(literals) => set(alloc, made, literals),
        Form::Path(first, labels) => {
            let (f, t) = function(alloc, schema, scope, made, first.get())?;
            walked(alloc, schema, made, t, f, labels)
        }
        Form::Struct(fields) => struct_of(alloc, schema, scope, made, fields),
        Form::Flatten(part) => {
            let (f, t) = function(alloc, schema, scope, made, part.get())?;
            flattened(alloc, made, f, t)
        }
        Form::SomeMember(part) => {
            let (r, _t) = function(alloc, schema, scope, made, part.get())?;
            let p = some_member(alloc, made, r)?;
            let tested = test(alloc, p)?;
            Ok(tested)
        }
        Form::Not(part) => {
            let p = predicate(alloc, schema, scope, made, part.get())?;
            let p = negated(alloc, made, p)?;
            let tested = test(alloc, p)?;
            Ok(tested)
        }
        Form::Intersect(first, links) => {
            let (x, t) = part_of(alloc, schema, scope, made, first.get())?;
            let x = intersections(alloc, schema, scope, made, x, links.as_slice())?;
            Ok((x, t))
        }
        Form::And(first, links) => tests_of(alloc, schema, scope, made, false, first, links),
        Form::Or(first, links) => tests_of(alloc, schema, scope, made, true, first, links),
        Form::UnionExcept(first, links) => {
            let (x, t) = part_of(alloc, schema, scope, made, first.get())?;
            let x = unions(alloc, schema, scope, made, x, links.as_slice())?;
            Ok((x, t))
        }
        Form::Compare(sign, a, b) => comparison(alloc, schema, scope, made, *sign, a, b),
        Form::Exists(x, range, body) => {
            quantifier(alloc, schema, scope, made, false, x, range, body)
        }
        Form::ForAll(x, range, body) => {
            quantifier(alloc, schema, scope, made, true, x, range, body)
        }
        Form::Select(head, ranges, condition) => {
            select(alloc, schema, scope, made, head, ranges, condition)
        }
    }
}

/// An expression as a function, with its type.
#[cycle(terms)]
pub(crate) fn function(
    alloc: Global,
    schema: &Schema,
    scope: &mut Scope,
    made: &mut u32,
    e: &Expr,
) -> Result<(MadeFun, BoxedTy), TranslateFault>
    ensures built { Builds (λ r. fun_view r.0) result made.new
        (and_then (build schema.now scope.old (query_tree e.now) made.old) (λ x m. function_of x.0 x.1 m)) }
    ensures ty { IfOk result (λ r. r.1 ≡ type_of schema.now scope.old (query_tree e.now)) }
    ensures kept { OnOk result (scope.new ≡ scope.old) }
{
    let (x, t) = part_of(alloc, schema, scope, made, e)?;
    let f = as_function(alloc, made, x)?;
    Ok((f, t))
}

/// An expression as a predicate.
#[cycle(terms)]
fn predicate(
    alloc: Global,
    schema: &Schema,
    scope: &mut Scope,
    made: &mut u32,
    e: &Expr,
) -> Result<MadePred, TranslateFault>
    ensures built { Builds pred_view result made.new
        (and_then (build schema.now scope.old (query_tree e.now) made.old) (λ x m. predicate_of x.0 x.1 m)) }
    ensures kept { OnOk result (scope.new ≡ scope.old) }
{
    let (x, _t) = part_of(alloc, schema, scope, made, e)?;
    as_predicate(alloc, made, x)
}

/// The operands of `intersect`, each joined to what stands before it.
#[cycle(terms)]
fn intersections(
    alloc: Global,
    schema: &Schema,
    scope: &mut Scope,
    made: &mut u32,
    x: Part,
    links: &[(usize, Expr)],
) -> Result<Part, TranslateFault>
    ensures built { Builds part_view result made.new
        (sets_built schema.now scope.old (part_view x) (of_links (map link_entry links.now)) made.old) }
    ensures kept { OnOk result (scope.new ≡ scope.old) }
{
    let Some(((_, e), rest)) = links.split_first() else {
        return Ok(x);
    };
    let f = as_function(alloc, made, x)?;
    let (g, _t) = function(alloc, schema, scope, made, e)?;
    let h = set_op(alloc, made, SetOp::Intersect, f, g)?;
    intersections(alloc, schema, scope, made, Part::Function(h), rest)
}

/// A chain of `and`, or of `or` where it is that.
#[cycle(terms)]
fn tests_of(
    alloc: Global,
    schema: &Schema,
    scope: &mut Scope,
    made: &mut u32,
    is_or: bool,
    first: &BoxedExpr,
    links: &Chain,
) -> Result<(Part, BoxedTy), TranslateFault>
    ensures built { Builds (λ r. part_view r.0) result made.new (and_then (build schema.now scope.old first.now made.old)
        (λ x m. tests_built schema.now scope.old (connective_built is_or) x (of_links links.now) m)) }
    ensures ty { IfOk result (λ r. r.1 ≡ type_of schema.now scope.old first.now) }
    ensures kept { OnOk result (scope.new ≡ scope.old) }
{
    let (x, t) = part_of(alloc, schema, scope, made, first.get())?;
    let x = tests(alloc, schema, scope, made, is_or, x, links.as_slice())?;
    Ok((x, t))
}

/// Its operands, each joined to what stands before it.
#[cycle(terms)]
fn tests(
    alloc: Global,
    schema: &Schema,
    scope: &mut Scope,
    made: &mut u32,
    is_or: bool,
    x: Part,
    links: &[(usize, Expr)],
) -> Result<Part, TranslateFault>
    ensures built { Builds part_view result made.new
        (tests_built schema.now scope.old (connective_built is_or) (part_view x) (of_links (map link_entry links.now)) made.old) }
    ensures kept { OnOk result (scope.new ≡ scope.old) }
{
    let Some(((_, e), rest)) = links.split_first() else {
        return Ok(x);
    };
    let p = as_predicate(alloc, made, x)?;
    let q = predicate(alloc, schema, scope, made, e)?;
    let r = connected(alloc, made, is_or, p, q)?;
    tests(alloc, schema, scope, made, is_or, Part::Test(r), rest)
}

/// The same of `union` and `except`.
#[cycle(terms)]
fn unions(
    alloc: Global,
    schema: &Schema,
    scope: &mut Scope,
    made: &mut u32,
    x: Part,
    links: &[(usize, bool, Expr)],
) -> Result<Part, TranslateFault>
    ensures built { Builds part_view result made.new
        (set_links_built schema.now scope.old (part_view x) (of_set_links (map set_link_entry links.now)) made.old) }
    ensures kept { OnOk result (scope.new ≡ scope.old) }
{
    let Some(((_, except, e), rest)) = links.split_first() else {
        return Ok(x);
    };
    let f = as_function(alloc, made, x)?;
    let (g, _t) = function(alloc, schema, scope, made, e)?;
    let h = set_link(alloc, made, *except, f, g)?;
    unions(alloc, schema, scope, made, Part::Function(h), rest)
}

#[cycle(terms)]
fn comparison(
    alloc: Global,
    schema: &Schema,
    scope: &mut Scope,
    made: &mut u32,
    sign: Sign,
    a: &BoxedExpr,
    b: &BoxedExpr,
) -> Result<(Part, BoxedTy), TranslateFault>
    ensures built { Builds (λ r. part_view r.0) result made.new
        (build schema.now scope.old (QCompare 0 sign a.now b.now) made.old) }
    ensures ty { IfOk result (λ r. r.1 ≡ TBool) }
    ensures kept { OnOk result (scope.new ≡ scope.old) }
{
    let (f, _t) = function(alloc, schema, scope, made, a.get())?;
    let (g, _u) = function(alloc, schema, scope, made, b.get())?;
    let p = compare(alloc, made, sign, f, g)?;
    let tested = test(alloc, p)?;
    Ok(tested)
}

/// A struct with its type.
#[cycle(terms)]
fn struct_of(
    alloc: Global,
    schema: &Schema,
    scope: &mut Scope,
    made: &mut u32,
    fields: &StructList,
) -> Result<(Part, BoxedTy), TranslateFault>
    ensures built { Builds (λ r. part_view r.0) result made.new
        (as_function_part (fields_built schema.now scope.old (of_fields fields.now) made.old)) }
    ensures ty { IfOk result (λ r. r.1 ≡ TStruct (types_of schema.now scope.old (of_fields fields.now))) }
    ensures kept { OnOk result (scope.new ≡ scope.old) }
{
    let Some((first, rest)) = fields.as_slice().split_first() else {
        return no_fields(alloc, made);
    };
    let mut types = Fields::new(alloc);
    let f = fields_of(alloc, schema, scope, made, &mut types, first, rest)?;
    let ty = struct_type(alloc, types)?;
    Ok((Part::Function(f), ty))
}

/// The fields of a struct, paired to the right; their types are added to the list.
#[cycle(terms)]
fn fields_of(
    alloc: Global,
    schema: &Schema,
    scope: &mut Scope,
    made: &mut u32,
    types: &mut Fields,
    first: &(Name, usize, Expr),
    rest: &[(Name, usize, Expr)],
) -> Result<MadeFun, TranslateFault>
    ensures built { Builds fun_view result made.new
        (fields_built schema.now scope.old (of_fields (named_entry first.now ∷ map named_entry rest.now)) made.old) }
    ensures types { OnOk result (of_type_fields types.new
        ≡ of_type_fields (types.old ++ type_fields (types_of schema.now scope.old (of_fields (named_entry first.now ∷ map named_entry rest.now))))) }
    ensures kept { OnOk result (scope.new ≡ scope.old) }
{
    let (label, _, e) = first;
    let (f, t) = function(alloc, schema, scope, made, e)?;
    push_field(types, label, t)?;
    match rest.split_first() {
        Some((second, others)) => {
            let g = fields_of(alloc, schema, scope, made, types, second, others)?;
            pair(alloc, made, f, g)
        }
        None => Ok(f),
    }
}

/// A quantifier: `for all` where `each` is true.
#[cycle(terms)]
fn quantifier(
    alloc: Global,
    schema: &Schema,
    scope: &mut Scope,
    made: &mut u32,
    each: bool,
    x: &Name,
    range: &BoxedExpr,
    body: &BoxedExpr,
) -> Result<(Part, BoxedTy), TranslateFault>
    ensures built { Builds (λ r. part_view r.0) result made.new
        (as_test_part (and_then (and_then (build schema.now scope.old range.now made.old) (λ y m. function_of y.0 y.1 m))
        (λ f m. and_then (and_then (build schema.now ((x.now, type_of_members (type_of schema.now scope.old range.now)) ∷ scope.old) body.now m)
        (λ y k. predicate_of y.0 y.1 k)) (λ p k. quantified_built (quantifier_tree each) p f k)))) }
    ensures ty { IfOk result (λ r. r.1 ≡ TBool) }
    ensures kept { OnOk result (scope.new ≡ scope.old) }
{
    let (r, t) = function(alloc, schema, scope, made, range.get())?;
    bind(alloc, scope, x, t)?;
    let p = predicate(alloc, schema, scope, made, body.get())?;
    scope.unbind();
    let p = quantified(alloc, made, each, p, r)?;
    let tested = test(alloc, p)?;
    Ok(tested)
}

/// A select with its type. More ranges than levels are refused at once.
#[cycle(terms)]
fn select(
    alloc: Global,
    schema: &Schema,
    scope: &mut Scope,
    made: &mut u32,
    head: &BoxedExpr,
    ranges: &Ranges,
    condition: &Option<(usize, BoxedExpr)>,
) -> Result<(Part, BoxedTy), TranslateFault>
    ensures built { Builds (λ r. part_view r.0) result made.new
        (build schema.now scope.old (QSelect 0 head.now (of_ranges ranges.now) (where_of condition.now)) made.old) }
    ensures ty { IfOk result
        (λ r. r.1 ≡ type_of schema.now scope.old (QSelect 0 head.now (of_ranges ranges.now) (where_of condition.now))) }
    ensures kept { OnOk result (scope.new ≡ scope.old) }
{
    if !are_few(ranges) {
        return Err(TranslateFault::TooLarge);
    }
    let (f, t) = match ranges.as_slice().split_first() {
        Some((first, rest)) => {
            ranges_of(alloc, schema, scope, made, head, first, rest, condition)?
        }
        None => function(alloc, schema, scope, made, head.get())?,
    };
    let ty = BoxedTy::new(alloc, Ty::Set(t))?;
    Ok((Part::Function(f), ty))
}

/// The ranges of a select with the condition and the head behind them, and the type of the head.
#[cycle(terms)]
fn ranges_of(
    alloc: Global,
    schema: &Schema,
    scope: &mut Scope,
    made: &mut u32,
    head: &BoxedExpr,
    first: &(Name, usize, Expr),
    rest: &[(Name, usize, Expr)],
    condition: &Option<(usize, BoxedExpr)>,
) -> Result<(MadeFun, BoxedTy), TranslateFault>
    ensures built { Builds (λ r. fun_view r.0) result made.new
        (ranges_built schema.now scope.old (of_ranges (named_entry first.now ∷ map named_entry rest.now))
        (λ ms m. where_built schema.now ms (where_of condition.now) m)
        (λ ms m. and_then (build schema.now ms head.now m) (λ x k. function_of x.0 x.1 k)) made.old) }
    ensures ty { IfOk result
        (λ r. r.1 ≡ type_of schema.now (scope_behind schema.now scope.old (of_ranges (named_entry first.now ∷ map named_entry rest.now))) head.now) }
    ensures kept { OnOk result (scope.new ≡ scope.old) }
{
    let (x, _, range) = first;
    let (r, t) = function(alloc, schema, scope, made, range)?;
    bind(alloc, scope, x, t)?;
    let all = behind_range(alloc, schema, scope, made, r, head, rest, condition)?;
    scope.unbind();
    Ok(all)
}

/// What stands behind a range: the others, or the condition and the head. The range's own nodes are counted before the others are gone
/// into, which bounds how deep that goes.
#[cycle(terms)]
fn behind_range(
    alloc: Global,
    schema: &Schema,
    scope: &mut Scope,
    made: &mut u32,
    r: MadeFun,
    head: &BoxedExpr,
    rest: &[(Name, usize, Expr)],
    condition: &Option<(usize, BoxedExpr)>,
) -> Result<(MadeFun, BoxedTy), TranslateFault>
    ensures built { Builds (λ r. fun_view r.0) result made.new
        (range_built (of_ranges (map named_entry rest.now)) (fun_view r) (λ m. where_built schema.now scope.old (where_of condition.now) m)
        (λ m. and_then (build schema.now scope.old head.now m) (λ x k. function_of x.0 x.1 k))
        (λ k. ranges_built schema.now scope.old (of_ranges (map named_entry rest.now))
        (λ ms m. where_built schema.now ms (where_of condition.now) m)
        (λ ms m. and_then (build schema.now ms head.now m) (λ x j. function_of x.0 x.1 j)) k) made.old) }
    ensures ty { IfOk result
        (λ r. r.1 ≡ type_of schema.now (scope_behind schema.now scope.old (of_ranges (map named_entry rest.now))) head.now) }
    ensures kept { OnOk result (scope.new ≡ scope.old) }
{
    let Some((second, others)) = rest.split_first() else {
        return innermost(alloc, schema, scope, made, r, head, condition);
    };
    charge(made, 7, 0, 0)?;
    let (g, t) = ranges_of(alloc, schema, scope, made, head, second, others, condition)?;
    let f = more(alloc, made, g, r)?;
    Ok((f, t))
}

/// The last range with the condition and the head.
#[cycle(terms)]
fn innermost(
    alloc: Global,
    schema: &Schema,
    scope: &mut Scope,
    made: &mut u32,
    r: MadeFun,
    head: &BoxedExpr,
    condition: &Option<(usize, BoxedExpr)>,
) -> Result<(MadeFun, BoxedTy), TranslateFault>
    ensures built { Builds (λ r. fun_view r.0) result made.new
        (and_then (where_built schema.now scope.old (where_of condition.now) made.old)
        (λ p m. and_then (and_then (build schema.now scope.old head.now m) (λ x k. function_of x.0 x.1 k)) (λ h k. last_built p h (fun_view r) k))) }
    ensures ty { IfOk result (λ r. r.1 ≡ type_of schema.now scope.old head.now) }
    ensures kept { OnOk result (scope.new ≡ scope.old) }
{
    let p = condition_of(alloc, schema, scope, made, condition)?;
    let (h, t) = function(alloc, schema, scope, made, head.get())?;
    let f = last(alloc, made, p, h, r)?;
    Ok((f, t))
}

#[cycle(terms)]
fn condition_of(
    alloc: Global,
    schema: &Schema,
    scope: &mut Scope,
    made: &mut u32,
    condition: &Option<(usize, BoxedExpr)>,
) -> Result<MadePred, TranslateFault>
    ensures built { Builds pred_view result made.new
        (where_built schema.now scope.old (where_of condition.now) made.old) }
    ensures kept { OnOk result (scope.new ≡ scope.old) }
{
    match condition {
        Some((_, e)) => predicate(alloc, schema, scope, made, e.get()),
        None => always(alloc, made, true),
    }
}

//! The type of a query in a scope, or its first fault.

ghost use Rattle.std.specs.Prelude.{◌≡◌, [], ◌∷◌, ◌++◌, map, IfOk, OnOk, Ok};
ghost use Rattle.kola_values.specs.Databases.{look_up, extent_class};
ghost use Rattle.kola_values.specs.Types.{TBool, TClass, TSet, of_type_fields};
ghost use Rattle.kola_schema.specs.Schemas.{names_of};
ghost use Rattle.oql_tree.specs.QueryTrees.{QExists, QSelect, QRange, NoRanges, of_links, of_set_links, of_fields, of_ranges};
ghost use Rattle.oql_tree.specs.QueryViews.{query_tree, link_entry, set_link_entry, where_of};
ghost use Rattle.oql_check.specs.QueryTypes.{and_then, provided, set_at, bool_at, sized, compare_type, has_range, name_type, path_type, query_type, links_type, set_links_type, fields_type, ranges_scope, where_type, label_at};
ghost use Rattle.oql_check.specs.Checking.{Finds, IsType, Binds, EndsIn, join_type};

use crate::fault::{CheckFault, CheckWhy};
use crate::join::{
    Join, bool_at, compared, flat_type, joined, set_at, set_of, some_member_type, struct_of,
};
use crate::literal::{literal_type, set_type};
use crate::path::path_type;
use crate::scope::Scope;
use kola_core::{Memory, Name};
use kola_schema::{Schema, has_label};
use kola_values::{BoxedTy, Fields, Ty};
use oql_tree::{BoxedExpr, Expr, Form, Labels, Ranges, Sign, StructList};
use std::alloc::Global;

/// The most fields of a struct.
const FIELDS: usize = 8;

// ---- names and labels

fn extent_type(alloc: Global, class: &Name) -> Result<BoxedTy, Memory>
    ensures { IfOk result (λ t. t ≡ TSet (TClass class.now)) }
{
    let class = class.copy()?;
    let set = Ty::set_of(alloc, Ty::Class(class))?;
    BoxedTy::new(alloc, set)
}

fn name_type(
    alloc: Global,
    schema: &Schema,
    scope: &Scope,
    at: usize,
    x: &Name,
) -> Result<BoxedTy, CheckFault>
    ensures { IsType result (name_type at (look_up x.now scope.now) (extent_class schema.now x.now)) }
{
    if let Some(t) = scope.find(x) {
        let t = t.copy()?;
        return Ok(t);
    }
    match schema.class_of(x) {
        Some(class) => {
            let t = extent_type(alloc, class)?;
            Ok(t)
        }
        None => Err(CheckFault::At {
            at,
            why: CheckWhy::UnknownName,
        }),
    }
}

/// Whether a label may stand behind these fields.
fn check_label(fields: &Fields, label: &Name, at: usize) -> Result<(), CheckFault>
    ensures { Finds (λ u. u) result (label_at at (names_of fields.now) label.now) }
{
    if has_label(fields.as_slice(), label) {
        return Err(CheckFault::At {
            at,
            why: CheckWhy::RepeatedLabel,
        });
    }
    if fields.len() >= FIELDS {
        return Err(CheckFault::At {
            at,
            why: CheckWhy::TooManyFields,
        });
    }
    Ok(())
}

fn push_field(fields: &mut Fields, label: &Name, t: BoxedTy) -> Result<(), Memory>
    ensures { OnOk result (fields.new ≡ fields.old ++ (label.now, t) ∷ []) }
{
    let label = label.copy()?;
    fields.push((label, t.into_inner()))
}

// ---- expressions

#[cycle(typing)]
pub(crate) fn query_type(
    alloc: Global,
    schema: &Schema,
    scope: &mut Scope,
    e: &Expr,
) -> Result<BoxedTy, CheckFault>
    ensures value { IsType result (query_type schema.now scope.old (query_tree e.now)) }
    ensures kept { OnOk result (scope.new ≡ scope.old) }
{
    let at = e.at;
    match &e.form {
        Form::Name(x) => name_type(alloc, schema, scope, at, x),
        Form::Literal(literal) => literal_type(alloc, at, literal),
        Form::SetOf(literals) => set_type(alloc, at, literals),
        Form::Path(first, labels) => walk_type(alloc, schema, scope, first, labels),
        Form::Struct(fields) => {
            let types = fields_type(alloc, schema, scope, fields)?;
            struct_of(alloc, at, types)
        }
        Form::Flatten(part) => {
            let t = query_type(alloc, schema, scope, part.get())?;
            flat_type(at, t)
        }
        Form::SomeMember(part) => {
            let t = query_type(alloc, schema, scope, part.get())?;
            some_member_type(alloc, at, t)
        }
        Form::Not(part) => {
            let t = query_type(alloc, schema, scope, part.get())?;
            bool_at(at, t)
        }
        Form::Intersect(first, links) => {
            let t = query_type(alloc, schema, scope, first.get())?;
            links_type(alloc, schema, scope, Join::Sets, t, links.as_slice())
        }
        Form::And(first, links) | Form::Or(first, links) => {
            let t = query_type(alloc, schema, scope, first.get())?;
            links_type(alloc, schema, scope, Join::Bools, t, links.as_slice())
        }
        Form::UnionExcept(first, links) => {
            let t = query_type(alloc, schema, scope, first.get())?;
            set_links_type(alloc, schema, scope, t, links.as_slice())
        }
        Form::Compare(sign, a, b) => {
            let t = query_type(alloc, schema, scope, a.get())?;
            let u = query_type(alloc, schema, scope, b.get())?;
            compared(alloc, *sign, at, t, u)
        }
        Form::Exists(x, range, body) | Form::ForAll(x, range, body) => {
            quantifier_type(alloc, schema, scope, at, x, range, body)
        }
        Form::Select(head, ranges, condition) => {
            select_type(alloc, schema, scope, at, head, ranges, condition)
        }
    }
}

/// The type of a path. That of a variable at its front is lent and not copied.
#[cycle(typing)]
fn walk_type(
    alloc: Global,
    schema: &Schema,
    scope: &mut Scope,
    first: &BoxedExpr,
    labels: &Labels,
) -> Result<BoxedTy, CheckFault>
    ensures value { IsType result
        (and_then (query_type schema.now scope.old first.now) (λ t. path_type schema.now t labels.now)) }
    ensures kept { OnOk result (scope.new ≡ scope.old) }
{
    if let Form::Name(x) = &first.get().form {
        if let Some(lent) = scope.find(x) {
            return path_type(alloc, schema, lent.get(), labels);
        }
    }
    let t = query_type(alloc, schema, scope, first.get())?;
    path_type(alloc, schema, t.get(), labels)
}

/// The operands of a chain, each joined to what stands before it.
#[cycle(typing)]
fn links_type(
    alloc: Global,
    schema: &Schema,
    scope: &mut Scope,
    join: Join,
    first: BoxedTy,
    links: &[(usize, Expr)],
) -> Result<BoxedTy, CheckFault>
    ensures value { IsType result
        (links_type schema.now scope.old (join_type join) first (of_links (map link_entry links.now))) }
    ensures kept { OnOk result (scope.new ≡ scope.old) }
{
    let mut t = first;
    for (at, e) in links {
        let u = query_type(alloc, schema, scope, e)?;
        t = joined(join, *at, t, u)?;
    }
    Ok(t)
}

/// The same of `union` and `except`.
#[cycle(typing)]
fn set_links_type(
    alloc: Global,
    schema: &Schema,
    scope: &mut Scope,
    first: BoxedTy,
    links: &[(usize, bool, Expr)],
) -> Result<BoxedTy, CheckFault>
    ensures value { IsType result
        (set_links_type schema.now scope.old first (of_set_links (map set_link_entry links.now))) }
    ensures kept { OnOk result (scope.new ≡ scope.old) }
{
    let mut t = first;
    for (at, _, e) in links {
        let u = query_type(alloc, schema, scope, e)?;
        t = joined(Join::Sets, *at, t, u)?;
    }
    Ok(t)
}

/// The fields of a struct. Each label is tested before its expression.
#[cycle(typing)]
fn fields_type(
    alloc: Global,
    schema: &Schema,
    scope: &mut Scope,
    fields: &StructList,
) -> Result<Fields, CheckFault>
    ensures value { Finds of_type_fields result (fields_type schema.now scope.old [] (of_fields fields.now)) }
    ensures kept { OnOk result (scope.new ≡ scope.old) }
{
    let mut types = Fields::new(alloc);
    for (label, at, e) in fields.as_slice() {
        check_label(&types, label, *at)?;
        let t = query_type(alloc, schema, scope, e)?;
        push_field(&mut types, label, t)?;
    }
    Ok(types)
}

/// The type of a quantifier of either kind.
#[cycle(typing)]
fn quantifier_type(
    alloc: Global,
    schema: &Schema,
    scope: &mut Scope,
    at: usize,
    x: &Name,
    range: &BoxedExpr,
    body: &BoxedExpr,
) -> Result<BoxedTy, CheckFault>
    ensures value { IsType result (query_type schema.now scope.old (QExists at x.now range.now body.now)) }
    ensures kept { OnOk result (scope.new ≡ scope.old) }
{
    let len = scope.len();
    bind_range(alloc, schema, scope, x, at, range.get())?;
    let t = query_type(alloc, schema, scope, body.get())?;
    scope.unbind(len);
    bool_at(at, t)
}

#[cycle(typing)]
fn select_type(
    alloc: Global,
    schema: &Schema,
    scope: &mut Scope,
    at: usize,
    head: &BoxedExpr,
    ranges: &Ranges,
    condition: &Option<(usize, BoxedExpr)>,
) -> Result<BoxedTy, CheckFault>
    ensures value { IsType result
        (query_type schema.now scope.old (QSelect at head.now (of_ranges ranges.now) (where_of condition.now))) }
    ensures kept { OnOk result (scope.new ≡ scope.old) }
{
    if ranges.as_slice().is_empty() {
        return Err(CheckFault::At {
            at,
            why: CheckWhy::NotASet,
        });
    }
    let len = scope.len();
    bind_ranges(alloc, schema, scope, ranges)?;
    check_condition(alloc, schema, scope, condition)?;
    let t = query_type(alloc, schema, scope, head.get())?;
    scope.unbind(len);
    set_of(alloc, at, t)
}

/// Puts the variables of the ranges into the scope, one by one.
#[cycle(typing)]
fn bind_ranges(
    alloc: Global,
    schema: &Schema,
    scope: &mut Scope,
    ranges: &Ranges,
) -> Result<(), CheckFault>
    ensures value { Binds result scope.new (ranges_scope schema.now scope.old (of_ranges ranges.now)) }
    ensures older { OnOk result (EndsIn scope.new scope.old) }
{
    for (x, at, range) in ranges.as_slice() {
        bind_range(alloc, schema, scope, x, *at, range)?;
    }
    Ok(())
}

/// Puts a variable into the scope, with the type of its range's members.
#[cycle(typing)]
fn bind_range(
    alloc: Global,
    schema: &Schema,
    scope: &mut Scope,
    x: &Name,
    at: usize,
    range: &Expr,
) -> Result<(), CheckFault>
    ensures value { Binds result scope.new
        (ranges_scope schema.now scope.old (QRange x.now at (query_tree range.now) NoRanges)) }
    ensures older { OnOk result (EndsIn scope.new scope.old) }
{
    let t = query_type(alloc, schema, scope, range)?;
    let member = set_at(at, t)?;
    scope.bind(x, member)?;
    Ok(())
}

#[cycle(typing)]
fn check_condition(
    alloc: Global,
    schema: &Schema,
    scope: &mut Scope,
    condition: &Option<(usize, BoxedExpr)>,
) -> Result<(), CheckFault>
    ensures value { Finds (λ _. TBool) result (where_type schema.now scope.old (where_of condition.now)) }
    ensures kept { OnOk result (scope.new ≡ scope.old) }
{
    match condition {
        Some((at, e)) => {
            let t = query_type(alloc, schema, scope, e.get())?;
            let _t = bool_at(*at, t)?;
            Ok(())
        }
        None => Ok(()),
    }
}

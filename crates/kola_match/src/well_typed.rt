//! Whether a rule is well typed under a schema.

ghost use Rattle.std.specs.Prelude.{◌≡◌, ◌↔◌, true, Some, IfOk};
ghost use Rattle.std.specs.List.{list_all};
ghost use Rattle.kola_core.specs.NameLists.{is_listed};
ghost use Rattle.kola_values.specs.Types.{of_type_fields};
ghost use Rattle.kola_values.specs.Databases.{look_up};
ghost use Rattle.kola_values.specs.Sets.{Each};
ghost use Rattle.kola_values.specs.Views.{type_tree};
ghost use Rattle.kola_schema.specs.Schemas.{are_distinct, names_of, class_names};
ghost use Rattle.kola_term.specs.Terms.{TermF, TermP};
ghost use Rattle.kola_term.specs.TermView.{fun_tree, pred_tree, term_tree};
ghost use Rattle.kola_term.specs.ContextView.{context_of, meta_tree};
ghost use Rattle.kola_term.specs.TypingAnswers.{IsFine};
ghost use Rattle.kola_rule.specs.RuleViews.{rule_tree};
ghost use Rattle.kola_match.specs.RuleOk.{knows_type, knows_fields, knows_meta, IsFunction, SidesFit, RuleOk};
ghost use Rattle.kola_match.specs.RuleChecks.{IsWithin, FineType, AlikeFine, OccursOnASide};

use crate::find::find;
use kola_core::{Memory, Name, Names};
use kola_rule::Rule;
use kola_schema::{Schema, entry_named, labels_are_distinct};
use kola_term::{Fun, MetaCtx, MetaTy, Pred, Term, TypeFault, depth, nodes, out_type, pred_ok};
use kola_values::{Fields, Ty};
use std::alloc::{AllocError, Global};

/// The most nodes of a side.
const NODES: u64 = 20_000;

/// The greatest depth of a side.
const DEPTH: u64 = 256;

/// Whether a class of the schema has the name.
fn has_class(schema: &Schema, name: &Name) -> bool
    ensures { result ≡ is_listed name.now (class_names schema.now) }
{
    schema.class_named(name).is_some()
}

/// Whether each class in the type is of the schema.
#[cycle(knows_type)]
fn knows_type(schema: &Schema, t: &Ty) -> bool
    ensures { result ≡ knows_type (class_names schema.now) (type_tree t.now) }
{
    match t {
        Ty::Int | Ty::Str | Ty::Bool | Ty::Unit | Ty::Var(_) => true,
        Ty::Class(name) => has_class(schema, name),
        Ty::Set(member) => knows_type(schema, member.get()),
        Ty::Pair(first, second) => {
            knows_type(schema, first.get()) && knows_type(schema, second.get())
        }
        Ty::Struct(fields) => knows_fields(schema, fields),
    }
}

/// The same of the types of fields.
#[cycle(knows_type)]
fn knows_fields(schema: &Schema, fields: &Fields) -> bool
    ensures { result ≡ knows_fields (class_names schema.now) (of_type_fields fields.now) }
{
    for (_, t) in fields.as_slice() {
        if !knows_type(schema, t) {
            return false;
        }
    }
    true
}

/// Whether each class in the types of a variable is of the schema.
fn knows_meta(schema: &Schema, meta: &MetaTy) -> bool
    ensures { result ≡ knows_meta (class_names schema.now) (meta_tree meta.now) }
{
    match meta {
        MetaTy::Fun(t, u) => knows_type(schema, t) && knows_type(schema, u),
        MetaTy::Pred(t) | MetaTy::Const(t) => knows_type(schema, t),
    }
}

/// Whether each class in the types of the variables is of the schema.
fn knows_variables(schema: &Schema, vars: &[(Name, MetaTy)]) -> bool
    ensures { result ≡ list_all (λ v. knows_meta (class_names schema.now) (meta_tree v.1)) vars.now }
{
    vars.iter().all(|entry| knows_meta(schema, &entry.1))
}

/// Whether the variables have distinct names.
fn names_differ(vars: &MetaCtx) -> bool
    ensures { result ≡ are_distinct (names_of (context_of vars.now)) }
{
    labels_are_distinct(vars.as_slice())
}

/// Whether a variable is a function.
fn is_function_type(meta: &MetaTy) -> bool
    ensures { (result ≡ true) ↔ IsFunction (Some (meta_tree meta.now)) }
{
    match meta {
        MetaTy::Fun(_, _) => true,
        MetaTy::Pred(_) | MetaTy::Const(_) => false,
    }
}

/// Whether the name is declared as a function.
fn is_function(vars: &MetaCtx, name: &Name) -> bool
    ensures { (result ≡ true) ↔ IsFunction (look_up name.now (context_of vars.now)) }
{
    match entry_named(vars.as_slice(), name) {
        Some(entry) => is_function_type(&entry.1),
        None => false,
    }
}

/// Whether each name of the list is declared as a function.
fn are_functions(vars: &MetaCtx, names: &Names) -> bool
    ensures { (result ≡ true) ↔ Each (λ n. IsFunction (look_up n (context_of vars.now))) names.now }
{
    for name in names.as_slice() {
        if !is_function(vars, name) {
            return false;
        }
    }
    true
}

/// Whether the variable stands on one of the two sides.
fn occurs(
    alloc: Global,
    left: &Term,
    right: &Term,
    name: &Name,
    meta: &MetaTy,
) -> Result<bool, Memory>
    ensures { IfOk result (λ b. (b ≡ true)
        ↔ OccursOnASide (term_tree left.now) (term_tree right.now) (name.now, meta_tree meta.now)) }
{
    let mut path = Vec::new(alloc);
    if find(left.as_part(), name, meta, &mut path)? {
        return Ok(true);
    }
    find(right.as_part(), name, meta, &mut path)
}

/// Whether each variable stands on one of the two sides.
pub(crate) fn all_occur(
    alloc: Global,
    vars: &MetaCtx,
    left: &Term,
    right: &Term,
) -> Result<bool, Memory>
    ensures { IfOk result (λ b. (b ≡ true)
        ↔ Each (OccursOnASide (term_tree left.now) (term_tree right.now)) (context_of vars.now)) }
{
    for (name, meta) in vars.as_slice() {
        if !occurs(alloc, left, right, name, meta)? {
            return Ok(false);
        }
    }
    Ok(true)
}

/// Whether the term has no more nodes and no greater depth than the limits.
fn is_within(t: &Term) -> bool
    ensures { (result ≡ true) ↔ IsWithin (term_tree t.now) }
{
    nodes(t) <= NODES && depth(t) <= DEPTH
}

/// The output type of a fine function; `None` exactly where it is not fine.
fn fine_type(
    alloc: Global,
    schema: &Schema,
    vars: &MetaCtx,
    f: &Fun,
    input: &Ty,
) -> Result<Option<Ty>, Memory>
    ensures { IfOk result
        (λ o. FineType schema.now (context_of vars.now) (TermF (fun_tree f.now)) (type_tree input.now) o) }
{
    match out_type(alloc, schema, vars, f, input) {
        Ok(u) => Ok(Some(u)),
        Err(TypeFault::At { .. }) => Ok(None),
        Err(TypeFault::Memory) => Err(AllocError),
    }
}

/// Whether two functions are fine, with one output type.
fn functions_fit(
    alloc: Global,
    schema: &Schema,
    vars: &MetaCtx,
    f: &Fun,
    g: &Fun,
    input: &Ty,
) -> Result<bool, Memory>
    ensures { IfOk result (λ b. (b ≡ true) ↔ AlikeFine schema.now (context_of vars.now)
        (TermF (fun_tree f.now)) (TermF (fun_tree g.now)) (type_tree input.now)) }
{
    let Some(u) = fine_type(alloc, schema, vars, f, input)? else {
        return Ok(false);
    };
    let Some(w) = fine_type(alloc, schema, vars, g, input)? else {
        return Ok(false);
    };
    Ok(u.is(&w))
}

/// Whether a predicate is fine.
fn is_fine(
    alloc: Global,
    schema: &Schema,
    vars: &MetaCtx,
    p: &Pred,
    input: &Ty,
) -> Result<bool, Memory>
    ensures { IfOk result (λ b. (b ≡ true)
        ↔ IsFine schema.now (context_of vars.now) (TermP (pred_tree p.now)) (type_tree input.now)) }
{
    match pred_ok(alloc, schema, vars, p, input) {
        Ok(()) => Ok(true),
        Err(TypeFault::At { .. }) => Ok(false),
        Err(TypeFault::Memory) => Err(AllocError),
    }
}

/// Whether two terms are within the limits on nodes, depth and types and typed at an input type: two functions with one
/// output type, or two predicates. It takes time by the nodes of both.
pub fn sides_fit(
    alloc: Global,
    schema: &Schema,
    vars: &MetaCtx,
    left: &Term,
    right: &Term,
    input: &Ty,
) -> Result<bool, Memory>
    ensures { IfOk result (λ b. (b ≡ true) ↔ SidesFit schema.now (context_of vars.now) (type_tree input.now)
        (term_tree left.now) (term_tree right.now)) }
{
    if !is_within(left) || !is_within(right) {
        return Ok(false);
    }
    match (left, right) {
        (Term::F(f), Term::F(g)) => functions_fit(alloc, schema, vars, f, g, input),
        (Term::P(p), Term::P(q)) => {
            if !is_fine(alloc, schema, vars, p, input)? {
                return Ok(false);
            }
            is_fine(alloc, schema, vars, q, input)
        }
        _ => Ok(false),
    }
}

/// Whether the rule is well typed under the schema: its variables have distinct names, each stands on a side, its
/// conditions name functions, every class in its types is of the schema, and both sides are typed at the input type, as
/// functions with one output type or as predicates. A side has at most 20,000 nodes and a depth of at most 256, and no
/// function in it has an output type of more than 4,096 nodes at its place.
pub fn rule_ok(alloc: Global, schema: &Schema, rule: &Rule) -> Result<bool, Memory>
    ensures { IfOk result (λ b. (b ≡ true) ↔ RuleOk schema.now (rule_tree rule.now)) }
{
    if !names_differ(&rule.vars) {
        return Ok(false);
    }
    if !are_functions(&rule.vars, &rule.when) {
        return Ok(false);
    }
    if !knows_variables(schema, rule.vars.as_slice()) {
        return Ok(false);
    }
    if !knows_type(schema, &rule.input) {
        return Ok(false);
    }
    if !all_occur(alloc, &rule.vars, &rule.left, &rule.right)? {
        return Ok(false);
    }
    sides_fit(
        alloc,
        schema,
        &rule.vars,
        &rule.left,
        &rule.right,
        &rule.input,
    )
}

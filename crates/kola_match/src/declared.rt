//! The declared variables of a rule, each matched by its types at a place where it stands.

ghost use Rattle.std.specs.Prelude.{◌≡◌, IfOk};
ghost use Rattle.kola_values.specs.Views.{type_tree};
ghost use Rattle.kola_term.specs.ContextView.{context_of, meta_tree};
ghost use Rattle.kola_match.specs.FoundViews.{binds_of};
ghost use Rattle.kola_match.specs.Spotting.{sides_of, OccursOn, AllOccurOn, AllTyped, FindsOne, FindsAll};

use crate::demand::match_variable;
use crate::find::find;
use crate::found::Found;
use kola_core::{Memory, Name};
use kola_schema::Schema;
use kola_term::{MetaCtx, MetaTy, SubTerm};
use kola_values::Ty;
use std::alloc::Global;

/// A side of a rule with the part that it is to give.
#[derive(Clone, Copy)]
pub(crate) struct Side<'p, 't> {
    pub(crate) pattern: SubTerm<'p>,
    pub(crate) part: SubTerm<'t>,
}

/// Matches a declared variable by its types, at a place where it stands on a side.
fn match_declared(
    alloc: Global,
    schema: &Schema,
    ctx: &MetaCtx,
    name: &Name,
    meta: &MetaTy,
    first: Side,
    second: Option<Side>,
    ty: &Ty,
    found: &mut Found,
) -> Result<bool, Memory>
    requires typed { AllTyped schema.now (context_of ctx.now) (type_tree ty.now) (sides_of first second) }
    requires occurs { OccursOn (sides_of first second) (name.now, meta_tree meta.now) }
    ensures { IfOk result (λ b. FindsOne schema.now (context_of ctx.now) (type_tree ty.now)
        (sides_of first.entry second.entry)
        (name.now, meta_tree meta.now) b (binds_of found.old) (binds_of found.new)) }
{
    let mut path = Vec::new(alloc);
    if find(first.pattern, name, meta, &mut path)? {
        return match_variable(
            alloc,
            schema,
            ctx,
            meta,
            first.part,
            ty,
            path.as_slice(),
            found,
        );
    }
    let Some(second) = second else {
        return Ok(false);
    };
    if find(second.pattern, name, meta, &mut path)? {
        return match_variable(
            alloc,
            schema,
            ctx,
            meta,
            second.part,
            ty,
            path.as_slice(),
            found,
        );
    }
    Ok(false)
}

/// Matches the declared variables by their types, each at a place where it stands on a side.
pub(crate) fn match_all_declared(
    alloc: Global,
    schema: &Schema,
    ctx: &MetaCtx,
    vars: &MetaCtx,
    first: Side,
    second: Option<Side>,
    ty: &Ty,
    found: &mut Found,
) -> Result<bool, Memory>
    requires typed { AllTyped schema.now (context_of ctx.now) (type_tree ty.now) (sides_of first second) }
    requires occur { AllOccurOn (sides_of first second) (context_of vars.now) }
    ensures { IfOk result (λ b. FindsAll schema.now (context_of ctx.now) (type_tree ty.now)
        (sides_of first.entry second.entry)
        (context_of vars.now) b (binds_of found.old) (binds_of found.new)) }
{
    for (name, meta) in vars.as_slice() {
        if !match_declared(alloc, schema, ctx, name, meta, first, second, ty, found)? {
            return Ok(false);
        }
    }
    Ok(true)
}

//! The instance of sides of a rule, as it is found.

ghost use Rattle.std.specs.Prelude.{◌≡◌, IfOk, IfSome, false};
ghost use Rattle.std.specs.Option.{option_map};
ghost use Rattle.kola_values.specs.Views.{type_tree};
ghost use Rattle.kola_term.specs.ContextView.{context_of};
ghost use Rattle.kola_match.specs.Substitutions.{Substitution};
ghost use Rattle.kola_match.specs.Pairs.{AllGive};
ghost use Rattle.kola_match.specs.Finding.{Finds};
ghost use Rattle.kola_match.specs.Binds.{substitution_of};
ghost use Rattle.kola_match.specs.FoundViews.{binds_of};
ghost use Rattle.kola_match.specs.SubstViews.{bindings, found_binds};
ghost use Rattle.kola_match.specs.Instances.{Decided, HasVariables};
ghost use Rattle.kola_match.specs.Spotting.{AllDeclared};
ghost use Rattle.kola_match.specs.Spotting.{sides_of, AllOccurOn, AllTyped, AllPatternsTyped};

use crate::declared::{Side, match_all_declared};
use crate::found::Found;
use crate::matching::{match_part, match_type, may_match};
use crate::subst::Subst;
use kola_core::Memory;
use kola_schema::Schema;
use kola_term::MetaCtx;
use kola_values::Ty;
use std::alloc::Global;

/// Whether the parts may be instances of the sides, node by node. It takes no memory.
fn may_match_sides(first: Side, second: Option<Side>) -> bool
    ensures { result ≡ false → (s : Substitution) → AllGive s (sides_of first.entry second.entry) → ⊥ }
{
    if !may_match(first.pattern, first.part) {
        return false;
    }
    match second {
        Some(side) => may_match(side.pattern, side.part),
        None => true,
    }
}

/// Takes the parts for the variables of the sides.
fn match_sides<'t>(
    first: Side<'_, 't>,
    second: Option<Side<'_, 't>>,
    found: &mut Found<'t>,
) -> Result<bool, Memory>
    ensures { IfOk result (λ b. Finds b (binds_of found.old) (binds_of found.new)
        (λ s. AllGive s (sides_of first.entry second.entry))) }
{
    if !match_part(first.pattern, first.part, found)? {
        return Ok(false);
    }
    match second {
        Some(side) => match_part(side.pattern, side.part, found),
        None => Ok(true),
    }
}

/// What one instance gives the parts of the sides, at a type in a context; `None` exactly where there is no instance.
fn matched<'t>(
    alloc: Global,
    schema: &Schema,
    ctx: &MetaCtx,
    vars: &MetaCtx,
    input: &Ty,
    first: Side<'_, 't>,
    second: Option<Side<'_, 't>>,
    ty: &Ty,
) -> Result<Option<Found<'t>>, Memory>
    requires typed { AllTyped schema.now (context_of ctx.now) (type_tree ty.now) (sides_of first second) }
    requires patterns { AllPatternsTyped schema.now (context_of vars.now) (type_tree input.now)
        (sides_of first second) }
    requires occur { AllOccurOn (sides_of first second) (context_of vars.now) }
    requires declared { AllDeclared (context_of vars.now) (context_of vars.now) }
    ensures { IfOk result (λ o. Decided schema.now (context_of ctx.now) (context_of vars.now)
        (type_tree input.now) (type_tree ty.now)
        (sides_of first.entry second.entry) (option_map binds_of o)) }
{
    if !may_match_sides(first, second) {
        return Ok(None);
    }
    schema.well_formed();
    let mut found = Found::nothing(alloc);
    if !match_sides(first, second, &mut found)? {
        return Ok(None);
    }
    if !match_type(input, ty, &mut found)? {
        return Ok(None);
    }
    if !match_all_declared(alloc, schema, ctx, vars, first, second, ty, &mut found)? {
        return Ok(None);
    }
    Ok(Some(found))
}

/// What an instance gives for the declared variables, where the sides give their parts, at a type in a context; `None`
/// exactly where there is no instance.
pub(crate) fn instance_of(
    alloc: Global,
    schema: &Schema,
    ctx: &MetaCtx,
    vars: &MetaCtx,
    input: &Ty,
    first: Side,
    second: Option<Side>,
    ty: &Ty,
) -> Result<Option<Subst>, Memory>
    requires typed { AllTyped schema.now (context_of ctx.now) (type_tree ty.now) (sides_of first second) }
    requires patterns { AllPatternsTyped schema.now (context_of vars.now) (type_tree input.now)
        (sides_of first second) }
    requires occur { AllOccurOn (sides_of first second) (context_of vars.now) }
    requires declared { AllDeclared (context_of vars.now) (context_of vars.now) }
    ensures found { IfOk result (λ o. Decided schema.now (context_of ctx.now) (context_of vars.now)
        (type_tree input.now) (type_tree ty.now)
        (sides_of first.entry second.entry) (option_map found_binds o)) }
    ensures variables { IfOk result (λ o. IfSome o (λ s. HasVariables (context_of vars.now)
        (substitution_of (found_binds s)) (bindings s))) }
{
    let Some(found) = matched(alloc, schema, ctx, vars, input, first, second, ty)? else {
        return Ok(None);
    };
    let subst = Subst::of_found(alloc, vars, found)?;
    Ok(Some(subst))
}

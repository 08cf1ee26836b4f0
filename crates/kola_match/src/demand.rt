//! What a variable's declared types demand of its term.

ghost use Rattle.std.specs.Prelude.{IfOk};
ghost use Rattle.kola_values.specs.Views.{type_tree};
ghost use Rattle.kola_term.specs.ContextView.{context_of, meta_tree};
ghost use Rattle.kola_term.specs.TermView.{fun_tree, const_tree};
ghost use Rattle.kola_term.specs.Parts.{sub_tree};
ghost use Rattle.kola_term.specs.Places.{Typed, sub_at, place};
ghost use Rattle.kola_match.specs.Finding.{Finds};
ghost use Rattle.kola_match.specs.Demanding.{InputOf, FunDemand, ConstDemand};
ghost use Rattle.kola_match.specs.FoundViews.{binds_of};
ghost use Rattle.kola_match.specs.Demanding.{Demands};

use crate::found::Found;
use crate::matching::match_type;
use kola_core::Memory;
use kola_schema::Schema;
use kola_term::{
    Const, Fun, MetaCtx, MetaTy, PlaceFault, SubTerm, const_type, input_at_part,
    out_type_without_limit,
};
use kola_values::Ty;
use std::alloc::{AllocError, Global};

/// The input type at a path of a typed part; `None` where no function and no predicate stands there.
fn input_of(
    alloc: Global,
    schema: &Schema,
    ctx: &MetaCtx,
    part: SubTerm,
    ty: &Ty,
    path: &[u8],
) -> Result<Option<Ty>, Memory>
    requires { Typed schema.now (context_of ctx.now) (sub_tree part) (type_tree ty.now) }
    ensures { IfOk result (λ o. InputOf schema.now (context_of ctx.now) (sub_tree part.entry)
        (type_tree ty.now) path.now o) }
{
    match input_at_part(alloc, schema, ctx, part, ty, path) {
        Ok(w) => Ok(Some(w)),
        Err(PlaceFault::Memory) => Err(AllocError),
        Err(PlaceFault::NoSuchPath | PlaceFault::WrongKind) => Ok(None),
    }
}

/// Matches the declared types of a function variable with those of its term at the input type.
fn match_fun(
    alloc: Global,
    schema: &Schema,
    ctx: &MetaCtx,
    input: &Ty,
    output: &Ty,
    f: &Fun,
    w: &Ty,
    found: &mut Found,
) -> Result<bool, Memory>
    ensures { IfOk result (λ b. Finds b (binds_of found.old) (binds_of found.new)
        (FunDemand schema.now (context_of ctx.now) (type_tree input.now) (type_tree output.now) (fun_tree f.now)
        (type_tree w.now))) }
{
    if !match_type(input, w, found)? {
        return Ok(false);
    }
    let Some(u) = out_type_without_limit(alloc, schema, ctx, f, w)? else {
        return Ok(false);
    };
    match_type(output, &u, found)
}

/// Matches the declared type of a constant variable with that of its term.
fn match_const(
    alloc: Global,
    schema: &Schema,
    ctx: &MetaCtx,
    ty: &Ty,
    c: &Const,
    found: &mut Found,
) -> Result<bool, Memory>
    ensures { IfOk result (λ b. Finds b (binds_of found.old) (binds_of found.new)
        (ConstDemand schema.now (context_of ctx.now) (type_tree ty.now) (const_tree c.now))) }
{
    let Some(u) = const_type(alloc, schema, ctx, c)? else {
        return Ok(false);
    };
    match_type(ty, &u, found)
}

/// Matches the declared types of a variable with those of its term, which stands at a path of a typed part.
pub(crate) fn match_variable(
    alloc: Global,
    schema: &Schema,
    ctx: &MetaCtx,
    meta: &MetaTy,
    part: SubTerm,
    ty: &Ty,
    path: &[u8],
    found: &mut Found,
) -> Result<bool, Memory>
    requires { Typed schema.now (context_of ctx.now) (sub_tree part) (type_tree ty.now) }
    ensures { IfOk result (λ b. Finds b (binds_of found.old) (binds_of found.new)
        (Demands schema.now (context_of ctx.now) (meta_tree meta.now) (sub_at (sub_tree part.entry) path.now)
        (place schema.now (context_of ctx.now) (sub_tree part.entry) (type_tree ty.now) path.now))) }
{
    let Some(at) = part.at(path) else {
        return Ok(false);
    };
    match (meta, at) {
        (MetaTy::Fun(input, output), SubTerm::F(f)) => {
            let Some(w) = input_of(alloc, schema, ctx, part, ty, path)? else {
                return Ok(false);
            };
            match_fun(alloc, schema, ctx, input, output, f, &w, found)
        }
        (MetaTy::Pred(input), SubTerm::P(_)) => {
            let Some(w) = input_of(alloc, schema, ctx, part, ty, path)? else {
                return Ok(false);
            };
            match_type(input, &w, found)
        }
        (MetaTy::Const(t), SubTerm::C(c)) => match_const(alloc, schema, ctx, t, c, found),
        _ => Ok(false),
    }
}

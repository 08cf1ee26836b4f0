//! The input types at the places of a typed term.

ghost use Rattle.std.specs.Prelude.{◌≡◌, ◌↔◌, IfOk};
ghost use Rattle.std.specs.Option.{option_map};
ghost use Rattle.kola_values.specs.Views.{type_tree};
ghost use Rattle.kola_term.specs.Typing.{const_type};
ghost use Rattle.kola_term.specs.TermView.{const_tree, fun_tree, pred_tree, term_tree};
ghost use Rattle.kola_term.specs.ContextView.{context_of};
ghost use Rattle.kola_term.specs.Places.{Typed, sub_at, place};
ghost use Rattle.kola_term.specs.Parts.{sub_tree};
ghost use Rattle.kola_term.specs.PlaceAnswers.{IsConstant, UnlessMemory};
ghost use Rattle.kola_term.specs.Replacing.{IsAnswer};
ghost use Rattle.kola_term.specs.Inputs.{beside, fun_input, pred_input, child_input, at_node, IsInput};

use crate::constant::Const;
use crate::inputs::{
    beside, copied, first, member, member_of_first, members_of_both, second, turned, with_member,
};
use crate::meta::MetaCtx;
use crate::part::SubTerm;
use crate::place::PlaceFault;
use crate::term::{Fun, Pred, Term};
use crate::unlimited::{const_type, out_type_without_limit};
use kola_core::{Memory, Path};
use kola_schema::Schema;
use kola_values::Ty;
use std::alloc::Global;

/// A constant's type with the type behind it.
fn with_constant(
    alloc: Global,
    schema: &Schema,
    ctx: &MetaCtx,
    c: &Const,
    t: &Ty,
) -> Result<Option<Ty>, Memory>
    ensures { IfOk result (λ o. option_map type_tree o
        ≡ beside (const_type schema.now (context_of ctx.now) (const_tree c.now)) (type_tree t.now)) }
{
    let Some(constant) = const_type(alloc, schema, ctx, c)? else {
        return Ok(None);
    };
    let pair = beside(alloc, constant, t)?;
    Ok(Some(pair))
}

/// The input type of a function's child.
fn fun_input(
    alloc: Global,
    schema: &Schema,
    ctx: &MetaCtx,
    f: &Fun,
    n: u8,
    t: &Ty,
) -> Result<Option<Ty>, Memory>
    ensures { IfOk result (λ o. option_map type_tree o
        ≡ fun_input schema.now (context_of ctx.now) (fun_tree f.now) n (type_tree t.now)) }
{
    match (f, n) {
        (Fun::Comp(_, g), 1) => out_type_without_limit(alloc, schema, ctx, g, t),
        (Fun::C(_, c), 1) => with_constant(alloc, schema, ctx, c, t),
        (Fun::Times(_, _), 1) => copied(first(t)),
        (Fun::Times(_, _), _) => copied(second(t)),
        (Fun::Iterate(_, _) | Fun::Unnest(_, _), _) => copied(member(t)),
        (Fun::Iter(_, _), _) => with_member(alloc, t),
        (Fun::Join(_, _), _) => members_of_both(alloc, t),
        (Fun::Nest(_, _), _) => copied(member_of_first(t)),
        _ => copied(Some(t)),
    }
}

/// The input type of a predicate's child.
fn pred_input(
    alloc: Global,
    schema: &Schema,
    ctx: &MetaCtx,
    p: &Pred,
    n: u8,
    t: &Ty,
) -> Result<Option<Ty>, Memory>
    ensures { IfOk result (λ o. option_map type_tree o
        ≡ pred_input schema.now (context_of ctx.now) (pred_tree p.now) n (type_tree t.now)) }
{
    match (p, n) {
        (Pred::At(_, f), 1) => out_type_without_limit(alloc, schema, ctx, f, t),
        (Pred::CP(_, c), 1) => with_constant(alloc, schema, ctx, c, t),
        (Pred::Inv(_), _) => turned(alloc, t),
        (Pred::Ex(_) | Pred::Fa(_), _) => with_member(alloc, t),
        _ => copied(Some(t)),
    }
}

/// The input type of a part's child.
fn child_input(
    alloc: Global,
    schema: &Schema,
    ctx: &MetaCtx,
    part: SubTerm,
    n: u8,
    t: &Ty,
) -> Result<Option<Ty>, Memory>
    ensures { IfOk result (λ o. option_map type_tree o
        ≡ child_input schema.now (context_of ctx.now) (sub_tree part.entry) n (type_tree t.now)) }
{
    match part {
        SubTerm::F(f) => fun_input(alloc, schema, ctx, f, n, t),
        SubTerm::P(p) => pred_input(alloc, schema, ctx, p, n, t),
        SubTerm::C(_) => copied(Some(t)),
    }
}

/// The input type itself, where the part is no constant.
fn at_node(part: SubTerm, ty: Ty) -> Result<Ty, PlaceFault>
    ensures { IsAnswer type_tree result (at_node (sub_tree part.entry) (type_tree ty)) }
{
    match part {
        SubTerm::C(_) => Err(PlaceFault::WrongKind),
        _ => Ok(ty),
    }
}

/// The input type at a path below a typed part.
fn input_below(
    alloc: Global,
    schema: &Schema,
    ctx: &MetaCtx,
    part: SubTerm,
    ty: Ty,
    path: &[u8],
) -> Result<Ty, PlaceFault>
    requires { Typed schema.now (context_of ctx.now) (sub_tree part) (type_tree ty) }
    ensures { IsInput schema.now (context_of ctx.now) (sub_tree part.entry) (type_tree ty) path.now result }
{
    let Some((n, rest)) = path.split_first() else {
        return at_node(part, ty);
    };
    let Some(child) = part.child(*n) else {
        return Err(PlaceFault::NoSuchPath);
    };
    let Some(input) = child_input(alloc, schema, ctx, part, *n, &ty)? else {
        return Err(PlaceFault::NoSuchPath);
    };
    input_below(alloc, schema, ctx, child, input, rest)
}

/// The input type at a path below a part that is typed at the given type. `NoSuchPath` comes exactly where the part has no such
/// path, `WrongKind` exactly where a constant stands there.
pub fn input_at_part(
    alloc: Global,
    schema: &Schema,
    ctx: &MetaCtx,
    part: SubTerm,
    ty: &Ty,
    path: &[u8],
) -> Result<Ty, PlaceFault>
    requires { Typed schema.now (context_of ctx.now) (sub_tree part) (type_tree ty.now) }
    ensures input { IfOk result
        (λ w. place schema.now (context_of ctx.now) (sub_tree part.entry) (type_tree ty.now) path.now
        ≡ Some (type_tree w)) }
    ensures no_such_path { UnlessMemory result ((result ≡ Err PlaceFault.NoSuchPath)
        ↔ (sub_at (sub_tree part.entry) path.now ≡ None)) }
    ensures wrong_kind { UnlessMemory result ((result ≡ Err PlaceFault.WrongKind)
        ↔ IsConstant (sub_at (sub_tree part.entry) path.now)) }
{
    let ty = ty.copy()?;
    input_below(alloc, schema, ctx, part, ty, path)
}

/// The input type at a path of a term that is typed at the given type. `NoSuchPath` comes exactly where the term has no such
/// path, `WrongKind` exactly where the part there is a constant.
pub fn input_at(
    alloc: Global,
    schema: &Schema,
    ctx: &MetaCtx,
    t: &Term,
    ty: &Ty,
    path: &Path,
) -> Result<Ty, PlaceFault>
    requires { Typed schema.now (context_of ctx.now) (term_tree t.now) (type_tree ty.now) }
    ensures input { IfOk result
        (λ w. place schema.now (context_of ctx.now) (term_tree t.now) (type_tree ty.now) path.now
        ≡ Some (type_tree w)) }
    ensures no_such_path { UnlessMemory result ((result ≡ Err PlaceFault.NoSuchPath)
        ↔ (sub_at (term_tree t.now) path.now ≡ None)) }
    ensures wrong_kind { UnlessMemory result ((result ≡ Err PlaceFault.WrongKind)
        ↔ IsConstant (sub_at (term_tree t.now) path.now)) }
{
    input_at_part(alloc, schema, ctx, t.as_part(), ty, path.as_slice())
}

//! Whether a function is shown to be injective.

ghost use Rattle.std.specs.Prelude.{◌≡◌, ◌↔◌, true, Some, IfOk};
ghost use Rattle.std.specs.Option.{option_map};
ghost use Rattle.kola_core.specs.NameLists.{is_listed};
ghost use Rattle.kola_values.specs.Databases.{look_up};
ghost use Rattle.kola_values.specs.Views.{type_tree};
ghost use Rattle.kola_term.specs.ContextView.{context_of, meta_tree};
ghost use Rattle.kola_term.specs.TermView.{const_tree, fun_tree, pred_tree};
ghost use Rattle.kola_term.specs.Typing.{fun_of, is_some_type};
ghost use Rattle.kola_injective.specs.Derived.{Derived, InjectiveWhere};
ghost use Rattle.kola_injective.specs.Inferring.{is_always, after_constant, is_supposed, infer};

use crate::keys::is_key;
use kola_core::{Memory, Name, Names};
use kola_schema::{Schema, entry_named};
use kola_term::{Const, Fun, MetaCtx, MetaTy, Pred, const_type, out_type_without_limit};
use kola_values::Ty;
use std::alloc::Global;

/// Whether the predicate is `KP(true)`.
fn is_always(p: &Pred) -> bool
    ensures { result ≡ is_always (pred_tree p.now) }
{
    match p {
        Pred::KP(b) => *b,
        _ => false,
    }
}

/// The type of the constant, before the input type.
fn after_constant(
    alloc: Global,
    schema: &Schema,
    ctx: &MetaCtx,
    c: &Const,
    t: &Ty,
) -> Result<Option<Ty>, Memory>
    ensures { IfOk result (λ o. option_map type_tree o
        ≡ after_constant schema.now (context_of ctx.now) (const_tree c.now) (type_tree t.now)) }
{
    let Some(first) = const_type(alloc, schema, ctx, c)? else {
        return Ok(None);
    };
    let second = t.copy()?;
    let pair = Ty::pair_of(alloc, first, second)?;
    Ok(Some(pair))
}

/// Whether the name is one of the list.
fn is_listed(names: &Names, name: &Name) -> bool
    ensures { result ≡ is_listed name.now names.now }
{
    names.as_slice().iter().any(|known| name.is(known))
}

/// Whether a variable is a function from the type.
fn is_from(meta: &MetaTy, t: &Ty) -> bool
    ensures { result ≡ is_some_type (fun_of (Some (meta_tree meta.now)) (type_tree t.now)) }
{
    match meta {
        MetaTy::Fun(input, _) => input.is(t),
        MetaTy::Pred(_) | MetaTy::Const(_) => false,
    }
}

/// Whether the name is declared as a function from the type.
fn is_declared_from(ctx: &MetaCtx, name: &Name, t: &Ty) -> bool
    ensures { result ≡ is_some_type (fun_of (look_up name.now (context_of ctx.now)) (type_tree t.now)) }
{
    match entry_named(ctx.as_slice(), name) {
        Some(entry) => is_from(&entry.1, t),
        None => false,
    }
}

/// Whether the test answers that the function is injective.
#[cycle(infer)]
fn inferred(
    alloc: Global,
    schema: &Schema,
    ctx: &MetaCtx,
    hyps: &Names,
    f: &Fun,
    t: &Ty,
) -> Result<bool, Memory>
    ensures { IfOk result (λ b. b ≡ infer schema.now (context_of ctx.now) hyps.now (fun_tree f.now) (type_tree t.now)) }
{
    match f {
        Fun::Id => Ok(true),
        Fun::Attr(_) => Ok(is_key(schema, f, t)),
        Fun::Comp(f, g) => {
            if !inferred(alloc, schema, ctx, hyps, g, t)? {
                return Ok(false);
            }
            let Some(between) = out_type_without_limit(alloc, schema, ctx, g, t)? else {
                return Ok(false);
            };
            inferred(alloc, schema, ctx, hyps, f, &between)
        }
        Fun::Pair(first, second) => {
            if is_key(schema, f, t) {
                return Ok(true);
            }
            if inferred(alloc, schema, ctx, hyps, first, t)? {
                return Ok(true);
            }
            inferred(alloc, schema, ctx, hyps, second, t)
        }
        Fun::Times(f, g) => {
            let Ty::Pair(first, second) = t else {
                return Ok(false);
            };
            if !inferred(alloc, schema, ctx, hyps, f, first.get())? {
                return Ok(false);
            }
            inferred(alloc, schema, ctx, hyps, g, second.get())
        }
        Fun::C(f, c) => {
            let Some(pair) = after_constant(alloc, schema, ctx, c, t)? else {
                return Ok(false);
            };
            inferred(alloc, schema, ctx, hyps, f, &pair)
        }
        Fun::Iterate(p, f) => {
            if !is_always(p) {
                return Ok(false);
            }
            match t {
                Ty::Set(member) => inferred(alloc, schema, ctx, hyps, f, member.get()),
                _ => Ok(false),
            }
        }
        Fun::Meta(name) => Ok(is_listed(hyps, name) && is_declared_from(ctx, name, t)),
        _ => Ok(false),
    }
}

/// Whether a function is shown to be injective at a type: by `id`, by the keys of the schema, by the variables of these
/// names, and through composition, pairs, products, a constant first part and `iterate(KP(true), f)`. It is then
/// injective in every database that meets the schema, where those variables are. It takes time by the number of the
/// function's nodes times its depth.
pub fn infer_inj(
    alloc: Global,
    schema: &Schema,
    ctx: &MetaCtx,
    hyps: &Names,
    f: &Fun,
    ty: &Ty,
) -> Result<bool, Memory>
    ensures exact { IfOk result (λ b. (b ≡ true)
        ↔ Derived schema.now (context_of ctx.now) hyps.now (fun_tree f.now) (type_tree ty.now)) }
    ensures sound { IfOk result (λ b. b ≡ true
        → InjectiveWhere schema.now (context_of ctx.now) hyps.now (fun_tree f.now) (type_tree ty.now)) }
{
    schema.well_formed();
    let derived = inferred(alloc, schema, ctx, hyps, f, ty)?;
    Ok(derived)
}

//! The types of terms, however large.

ghost use Rattle.std.specs.Prelude.{◌≡◌, IfOk};
ghost use Rattle.std.specs.Option.{option_map};
ghost use Rattle.kola_values.specs.Views.{type_tree};
ghost use Rattle.kola_term.specs.Typing.{out, is_typed, const_type};
ghost use Rattle.kola_term.specs.TermView.{const_tree, fun_tree, pred_tree};
ghost use Rattle.kola_term.specs.ContextView.{context_of};

use crate::constant::Const;
use crate::judge::Judge;
use crate::meta::MetaCtx;
use crate::term::{Fun, Pred};
use crate::typing::TypeFault;
use kola_core::Memory;
use kola_schema::Schema;
use kola_values::Ty;
use std::alloc::{AllocError, Global};

/// The output type of a function at an input type, however large; `None` exactly where it is not typed there.
///
/// It takes time by the number of the term's nodes times the greatest number of nodes of a type that it meets, and a type
/// may have many more nodes than the term: each pair of a value with itself doubles them.
pub fn out_type_without_limit(
    alloc: Global,
    schema: &Schema,
    ctx: &MetaCtx,
    f: &Fun,
    t: &Ty,
) -> Result<Option<Ty>, Memory>
    ensures { IfOk result
        (λ o. option_map type_tree o ≡ out schema.now (context_of ctx.now) (fun_tree f.now) (type_tree t.now)) }
{
    let judge = Judge {
        alloc,
        schema,
        ctx,
        limited: false,
    };
    match judge.fun(f, t) {
        Ok(u) => Ok(Some(u)),
        Err(TypeFault::At { .. }) => Ok(None),
        Err(TypeFault::Memory) => Err(AllocError),
    }
}

/// Whether a predicate is typed at an input type, however large the types in it are. The cost is that of
/// `out_type_without_limit`.
pub fn pred_ok_without_limit(
    alloc: Global,
    schema: &Schema,
    ctx: &MetaCtx,
    p: &Pred,
    t: &Ty,
) -> Result<bool, Memory>
    ensures { IfOk result (λ b. b ≡ is_typed schema.now (context_of ctx.now) (pred_tree p.now) (type_tree t.now)) }
{
    let judge = Judge {
        alloc,
        schema,
        ctx,
        limited: false,
    };
    match judge.pred(p, t) {
        Ok(()) => Ok(true),
        Err(TypeFault::At { .. }) => Ok(false),
        Err(TypeFault::Memory) => Err(AllocError),
    }
}

/// The type of a constant; `None` exactly where it names no extent or no constant variable. It takes time by the number of
/// nodes of the type and of names in the schema or the context.
pub fn const_type(
    alloc: Global,
    schema: &Schema,
    ctx: &MetaCtx,
    c: &Const,
) -> Result<Option<Ty>, Memory>
    ensures { IfOk result
        (λ o. option_map type_tree o ≡ const_type schema.now (context_of ctx.now) (const_tree c.now)) }
{
    let judge = Judge {
        alloc,
        schema,
        ctx,
        limited: false,
    };
    match judge.constant(c) {
        Ok(u) => Ok(Some(u)),
        Err(TypeFault::At { .. }) => Ok(None),
        Err(TypeFault::Memory) => Err(AllocError),
    }
}

//! The type of a term, or its first fault.

ghost use Rattle.kola_values.specs.Views.{type_tree};
ghost use Rattle.kola_term.specs.Terms.{TermF, TermP};
ghost use Rattle.kola_term.specs.Judging.{refused};
ghost use Rattle.kola_term.specs.TermView.{fun_tree, pred_tree};
ghost use Rattle.kola_term.specs.ContextView.{context_of};
ghost use Rattle.kola_term.specs.TypingAnswers.{why_tree, IsFault, TypeOf, CheckOf};

use crate::judge::Judge;
use crate::meta::MetaCtx;
use crate::term::{Fun, Pred};
use kola_core::{Memory, Path};
use kola_schema::Schema;
use kola_values::Ty;
use std::alloc::Global;

/// Why a node of a term has no type.
#[derive(Clone, Copy, Debug, PartialEq, Eq)]
pub enum TypeWhy {
    /// The input type has not the node's form, or is not the declared input type of a variable.
    NotThisInput,
    /// The outputs of `if` differ, the output of `nest`'s first function is not the type of the second set's members, or
    /// the output of `unnest`'s second function is no set.
    OutputsDiffer,
    /// The class has no attribute of the name.
    NoAttribute,
    /// No class has an extent of the name.
    NoExtent,
    /// The context has no variable of the name and kind.
    WrongVariable,
    /// The node's output type has more than 4,096 nodes.
    TypeTooLarge,
}

/// The first fault of a term, by the path to its node and its cause; or want of memory.
#[derive(Debug, Drop)]
pub enum TypeFault {
    At { path: Path, why: TypeWhy },
    Memory,
}

impl From<Memory> for TypeFault {
    ghost use Rattle.std.specs.Prelude.{◌≡◌};
    ghost use Rattle.kola_term.specs.declared.typing.TypeFault.TheVariants as fault;

    ghost from_gives = { λ _ e. e ≡ fault.Memory };

    fn from(_e: Memory) -> TypeFault {
        TypeFault::Memory
    }
}

/// A fault at the term itself.
pub(crate) fn refused(alloc: Global, why: TypeWhy) -> TypeFault
    ensures { IsFault result (refused (why_tree why)) }
{
    TypeFault::At {
        path: Path::new(alloc),
        why,
    }
}

/// The output type of a function at an input type, where it is typed there and no function in it has an output type of
/// more than 4,096 nodes at its place; else the first fault, by its path and its cause. A node is judged in four parts:
/// its own input type; its children, from the left, but the constant first in `C`, the inner function first in
/// `(f o g)` and the function first in `(p @ f)`; the outputs of its children; the size of its own output type.
///
/// It takes time by the number of the term's nodes times the greatest number of nodes of a type that it meets. An output
/// type of more than 4,096 nodes is never built, and its count stops there.
pub fn out_type(
    alloc: Global,
    schema: &Schema,
    ctx: &MetaCtx,
    f: &Fun,
    t: &Ty,
) -> Result<Ty, TypeFault>
    ensures { TypeOf schema.now (context_of ctx.now) (TermF (fun_tree f.now)) (type_tree t.now) result }
{
    let judge = Judge {
        alloc,
        schema,
        ctx,
        limited: true,
    };
    judge.fun(f, t)
}

/// Whether a predicate is typed at an input type, and no function in it has an output type of more than 4,096 nodes at
/// its place; else the first fault. The order of faults and the cost are those of `out_type`.
pub fn pred_ok(
    alloc: Global,
    schema: &Schema,
    ctx: &MetaCtx,
    p: &Pred,
    t: &Ty,
) -> Result<(), TypeFault>
    ensures { CheckOf schema.now (context_of ctx.now) (TermP (pred_tree p.now)) (type_tree t.now) result }
{
    let judge = Judge {
        alloc,
        schema,
        ctx,
        limited: true,
    };
    judge.pred(p, t)
}

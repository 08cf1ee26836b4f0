//! Which functions are shown to be injective.

ghost use Rattle.std.specs.Prelude.{◌≡◌, ◌↔◌, true, IfOk};
ghost use Rattle.kola_values.specs.Views.{type_tree};
ghost use Rattle.kola_term.specs.ContextView.{context_of};
ghost use Rattle.kola_term.specs.TermView.{fun_tree};
ghost use Rattle.kola_injective.specs.Derived.{Derived, InjectiveWhere};

use kola_core::{Memory, Names};
use kola_schema::Schema;
use kola_term::{Fun, MetaCtx};
use kola_values::Ty;
use std::alloc::Global;

/// Whether a function is shown to be injective at a type, by the keys of the schema and where the variables of these
/// names are; it is then injective in every database that meets the schema.
pub fn infer_inj(
    alloc: Global,
    schema: &Schema,
    ctx: &MetaCtx,
    hyps: &Names,
    f: &Fun,
    ty: &Ty,
) -> Result<bool, Memory>
    ensures exact { IfOk result (λ b. (b ≡ true)
        ↔ Derived schema.now (context_of ctx.now) hyps.now (fun_tree f.now) (type_tree ty.now)) }
    ensures sound { IfOk result (λ b. b ≡ true
        → InjectiveWhere schema.now (context_of ctx.now) hyps.now (fun_tree f.now) (type_tree ty.now)) }
{
    kola_injective::infer_inj(alloc, schema, ctx, hyps, f, ty)
}

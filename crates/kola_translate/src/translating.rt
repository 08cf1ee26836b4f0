//! The translation of a typed query.

ghost use Rattle.kola_term.specs.TermView.{fun_tree};
ghost use Rattle.oql_tree.specs.QueryViews.{query_tree};
ghost use Rattle.kola_translate.specs.TranslationAnswers.{IsTranslated, IsCounted, IsJudged};

use crate::fault::TranslateFault;
use crate::scope::Scope;
use crate::terms::function;
use kola_core::Items;
use kola_schema::Schema;
use kola_term::{Fun, MetaCtx, TypeFault, out_type};
use kola_values::Ty;
use oql_check::Typed;
use oql_tree::Query;
use std::alloc::Global;

/// The translation, where it has at most 20,000 nodes and a depth of at most 256.
#[tactic(auto, using(crate::proofs::Fitting::counted_ok, crate::proofs::Fitting::counted_err))]
fn counted(alloc: Global, schema: &Schema, e: &Query) -> Result<Box<Fun>, TranslateFault>
    ensures { IsCounted (λ f. f.value) schema.now (query_tree e.now) result }
{
    let mut scope = Scope::new(alloc);
    let mut made = 0;
    let (f, _t) = function(alloc, schema, &mut scope, &mut made, e)?;
    Ok(f.fun)
}

/// Whether a function is typed at the unit with no type of more than 4,096 nodes.
#[tactic(auto, using(crate::proofs::Fitting::not_fine_without))]
fn judge(alloc: Global, schema: &Schema, f: &Fun) -> Result<(), TranslateFault>
    ensures { IsJudged schema.now (fun_tree f.now) result }
{
    let no_variables: MetaCtx = Items::new(alloc);
    match out_type(alloc, schema, &no_variables, f, &Ty::Unit) {
        Ok(_) => Ok(()),
        Err(TypeFault::At { .. }) => Err(TranslateFault::TooLarge),
        Err(TypeFault::Memory) => Err(TranslateFault::Memory),
    }
}

/// The translation of a query, where it fits at the unit; `TooLarge` exactly where it does not: where the term has more than 20,000 nodes, a
/// greater depth than 256, or a function whose output type has more than 4,096 nodes at its place.
///
/// Nodes and depth are counted before anything is made, so no larger term is built; a select of more than 256 ranges is refused before its
/// first range. A name is looked for among the variables in scope from the newest on, which are never more than the nodes made so far.
#[tactic(auto, using(crate::proofs::Fitting::fits_at, crate::proofs::Fitting::not_counted, crate::proofs::Fitting::not_judged))]
pub fn translate(alloc: Global, schema: &Schema, q: &Typed) -> Result<Fun, TranslateFault>
    ensures { IsTranslated schema.now q.now.0 result }
{
    let f = counted(alloc, schema, q.query())?;
    judge(alloc, schema, &f)?;
    Ok(Box::into_inner(f))
}

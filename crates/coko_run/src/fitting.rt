//! Whether a whole term fits at `unit`.

ghost use Rattle.std.specs.Prelude.{◌≡◌, ◌↔◌, [], true, IfOk};
ghost use Rattle.kola_values.specs.Types.{TUnit};
ghost use Rattle.kola_term.specs.Terms.{TermF, TermP, TermC};
ghost use Rattle.kola_term.specs.TermView.{const_tree, fun_tree, pred_tree, term_tree};
ghost use Rattle.kola_term.specs.TypingAnswers.{IsFine};
ghost use Rattle.kola_match.specs.RuleChecks.{IsWithin};
ghost use Rattle.coko_run.specs.Firing.{FitsUnit};

use kola_core::{Items, Memory};
use kola_schema::Schema;
use kola_term::{Const, Fun, Pred, Term, TypeFault, const_type, depth, nodes, out_type, pred_ok};
use kola_values::Ty;
use std::alloc::{AllocError, Global};

/// The most nodes of a term.
const NODES: u64 = 20_000;

/// The greatest depth of a term.
const DEPTH: u64 = 256;

/// Whether the term has no more nodes and no greater depth than the limits.
fn is_within(t: &Term) -> bool
    ensures { (result ≡ true) ↔ IsWithin (term_tree t.now) }
{
    nodes(t) <= NODES && depth(t) <= DEPTH
}

/// Whether the function is fine at `unit`.
fn is_fine_fun(alloc: Global, schema: &Schema, f: &Fun) -> Result<bool, Memory>
    ensures { IfOk result (λ b. (b ≡ true) ↔ IsFine schema.now [] (TermF (fun_tree f.now)) TUnit) }
{
    let none = Items::new(alloc);
    match out_type(alloc, schema, &none, f, &Ty::Unit) {
        Ok(_) => Ok(true),
        Err(TypeFault::At { .. }) => Ok(false),
        Err(TypeFault::Memory) => Err(AllocError),
    }
}

/// Whether the predicate is fine at `unit`.
fn is_fine_pred(alloc: Global, schema: &Schema, p: &Pred) -> Result<bool, Memory>
    ensures { IfOk result (λ b. (b ≡ true) ↔ IsFine schema.now [] (TermP (pred_tree p.now)) TUnit) }
{
    let none = Items::new(alloc);
    match pred_ok(alloc, schema, &none, p, &Ty::Unit) {
        Ok(()) => Ok(true),
        Err(TypeFault::At { .. }) => Ok(false),
        Err(TypeFault::Memory) => Err(AllocError),
    }
}

/// Whether the constant is fine.
fn is_fine_const(alloc: Global, schema: &Schema, c: &Const) -> Result<bool, Memory>
    ensures { IfOk result (λ b. (b ≡ true) ↔ IsFine schema.now [] (TermC (const_tree c.now)) TUnit) }
{
    let none = Items::new(alloc);
    match const_type(alloc, schema, &none, c)? {
        Some(_) => Ok(true),
        None => Ok(false),
    }
}

/// Whether the term is fine at `unit`.
fn is_fine(alloc: Global, schema: &Schema, t: &Term) -> Result<bool, Memory>
    ensures { IfOk result (λ b. (b ≡ true) ↔ IsFine schema.now [] (term_tree t.now) TUnit) }
{
    match t {
        Term::F(f) => is_fine_fun(alloc, schema, f),
        Term::P(p) => is_fine_pred(alloc, schema, p),
        Term::C(c) => is_fine_const(alloc, schema, c),
    }
}

/// Whether the term fits at `unit`.
pub(crate) fn fits_unit(alloc: Global, schema: &Schema, t: &Term) -> Result<bool, Memory>
    ensures { IfOk result (λ b. (b ≡ true) ↔ FitsUnit schema.now (term_tree t.now)) }
{
    if !is_within(t) {
        return Ok(false);
    }
    is_fine(alloc, schema, t)
}

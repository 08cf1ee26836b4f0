//! The types of literals.

ghost use Rattle.std.specs.Prelude.{◌≡◌, ℕ, map, Ok, IfOk};
ghost use Rattle.kola_values.specs.Types.{TSet, same_type};
ghost use Rattle.kola_values.specs.Views.{type_tree};
ghost use Rattle.oql_tree.specs.QueryViews.{lit_tree, literal_entry, literal_entries};
ghost use Rattle.oql_check.specs.QueryTypes.{and_then, literal_type, alike, literals_type};
ghost use Rattle.oql_check.specs.Checking.{Finds, IsType, literal_form};

use crate::fault::{CheckFault, CheckWhy};
use kola_core::Memory;
use kola_values::{BoxedTy, Ty};
use oql_tree::{Lit, LitList};
use std::alloc::Global;

/// What every literal of the program keeps: its number has 64 bits.
fn is_in_range(literal: &Lit)
    ensures { (at : ℕ) → literal_type at (lit_tree literal.now) ≡ Ok (literal_form (lit_tree literal.now)) }
{
    match literal {
        Lit::Int(n) => {
            let _n = *n;
        }
        Lit::Str(_) | Lit::Bool(_) => {}
    }
}

fn are_alike(a: &Lit, b: &Lit) -> bool
    ensures { result ≡ same_type (literal_form (lit_tree a.now)) (literal_form (lit_tree b.now)) }
{
    match (a, b) {
        (Lit::Int(_), Lit::Int(_)) => true,
        (Lit::Str(_), Lit::Str(_)) => true,
        (Lit::Bool(_), Lit::Bool(_)) => true,
        _ => false,
    }
}

fn form_type(alloc: Global, literal: &Lit) -> Result<BoxedTy, Memory>
    ensures { IfOk result (λ t. t ≡ literal_form (lit_tree literal.now)) }
{
    match literal {
        Lit::Int(_) => BoxedTy::new(alloc, Ty::Int),
        Lit::Str(_) => BoxedTy::new(alloc, Ty::Str),
        Lit::Bool(_) => BoxedTy::new(alloc, Ty::Bool),
    }
}

/// The type of a literal.
pub(crate) fn literal_type(alloc: Global, at: usize, literal: &Lit) -> Result<BoxedTy, CheckFault>
    ensures { IsType result (literal_type at (lit_tree literal.now)) }
{
    is_in_range(literal);
    let t = form_type(alloc, literal)?;
    Ok(t)
}

/// Whether each literal is of the first one's type.
fn all_alike(first: &Lit, others: &[(Lit, usize)]) -> Result<(), CheckFault>
    ensures { Finds (λ _. literal_form (lit_tree first.now)) result
        (alike (literal_form (lit_tree first.now)) (map literal_entry others.now)) }
{
    for (literal, at) in others {
        is_in_range(literal);
        if !are_alike(first, literal) {
            return Err(CheckFault::At {
                at: *at,
                why: CheckWhy::TypesDiffer,
            });
        }
    }
    Ok(())
}

/// The type of a set of literals.
pub(crate) fn set_type(alloc: Global, at: usize, literals: &LitList) -> Result<BoxedTy, CheckFault>
    ensures { IsType result (and_then (literals_type at (literal_entries literals.now)) (λ t. Ok (TSet t))) }
{
    let Some(((first, _), others)) = literals.as_slice().split_first() else {
        return Err(CheckFault::At {
            at,
            why: CheckWhy::TypesDiffer,
        });
    };
    is_in_range(first);
    all_alike(first, others)?;
    let t = form_type(alloc, first)?;
    let set = BoxedTy::new(alloc, Ty::Set(t))?;
    Ok(set)
}

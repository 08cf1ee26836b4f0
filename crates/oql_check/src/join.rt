//! The types of forms from those of their parts.

ghost use Rattle.std.specs.Prelude.{◌≡◌, IfOk, Ok};
ghost use Rattle.kola_values.specs.Types.{TBool, TSet, of_type_fields};
ghost use Rattle.kola_values.specs.Views.{type_tree};
ghost use Rattle.oql_check.specs.QueryTypes.{and_then, sized, set_at, bool_at, is_ordered, flat_type, struct_of, sets_type, bools_type, order_type, compare_type};
ghost use Rattle.oql_check.specs.Checking.{Finds, IsType, join_type};
ghost use Rattle.oql_check.specs.declared.fault.CheckFault.TheVariants as fault;
ghost use Rattle.oql_check.specs.declared.fault.CheckWhy.TheVariants as why;
ghost use Rattle.oql_tree.specs.declared.query.Sign.TheVariants as sign;

use crate::fault::{CheckFault, CheckWhy};
use crate::size::{is_small_set, is_small_struct};
use kola_core::Memory;
use kola_values::{BoxedTy, Fields, Ty};
use oql_tree::Sign;
use std::alloc::Global;

/// How the operands of a chain are joined.
#[derive(Clone, Copy)]
pub(crate) enum Join {
    Sets,
    Bools,
}

// ---- tests

fn is_ordered(t: &Ty) -> bool
    ensures { result ≡ is_ordered (type_tree t.now) }
{
    match t {
        Ty::Int | Ty::Str => true,
        _ => false,
    }
}

fn check_bool(at: usize, t: &Ty) -> Result<(), CheckFault>
    ensures { Finds (λ _. TBool) result (bool_at at (type_tree t.now)) }
{
    match t {
        Ty::Bool => Ok(()),
        _ => Err(CheckFault::At {
            at,
            why: CheckWhy::NotBool,
        }),
    }
}

fn check_set(at: usize, t: &Ty) -> Result<(), CheckFault>
    ensures { Finds (λ _. type_tree t.now) result (and_then (set_at at (type_tree t.now)) (λ m. Ok (TSet m))) }
{
    match t {
        Ty::Set(_) => Ok(()),
        _ => Err(CheckFault::At {
            at,
            why: CheckWhy::NotASet,
        }),
    }
}

fn differ(at: usize) -> CheckFault
    ensures { result ≡ fault.At at why.TypesDiffer }
{
    CheckFault::At {
        at,
        why: CheckWhy::TypesDiffer,
    }
}

fn check_sets(at: usize, t: &Ty, u: &Ty) -> Result<(), CheckFault>
    ensures { Finds (λ _. type_tree t.now) result (sets_type at (type_tree t.now) (type_tree u.now)) }
{
    let Ty::Set(m) = t else {
        return Err(CheckFault::At {
            at,
            why: CheckWhy::NotASet,
        });
    };
    let Ty::Set(n) = u else {
        return Err(CheckFault::At {
            at,
            why: CheckWhy::NotASet,
        });
    };
    if m.get().is(n.get()) {
        Ok(())
    } else {
        Err(differ(at))
    }
}

fn check_bools(at: usize, t: &Ty, u: &Ty) -> Result<(), CheckFault>
    ensures { Finds (λ _. TBool) result (bools_type at (type_tree t.now) (type_tree u.now)) }
{
    check_bool(at, t)?;
    check_bool(at, u)
}

fn check_order(at: usize, t: &Ty, u: &Ty) -> Result<(), CheckFault>
    ensures { Finds (λ _. TBool) result (order_type at (type_tree t.now) (type_tree u.now)) }
{
    if !t.is(u) {
        return Err(differ(at));
    }
    if !is_ordered(t) {
        return Err(CheckFault::At {
            at,
            why: CheckWhy::NotOrdered,
        });
    }
    Ok(())
}

fn check_member(at: usize, t: &Ty, u: &Ty) -> Result<(), CheckFault>
    ensures { Finds (λ _. TBool) result (compare_type sign.Member at (type_tree t.now) (type_tree u.now)) }
{
    let Ty::Set(m) = u else {
        return Err(CheckFault::At {
            at,
            why: CheckWhy::NotASet,
        });
    };
    if t.is(m.get()) {
        Ok(())
    } else {
        Err(differ(at))
    }
}

fn check_comparison(sign: Sign, at: usize, t: &Ty, u: &Ty) -> Result<(), CheckFault>
    ensures { Finds (λ _. TBool) result (compare_type sign at (type_tree t.now) (type_tree u.now)) }
{
    match sign {
        Sign::Eq | Sign::Ne => { if t.is(u) { Ok(()) } else { Err(differ(at)) } }
        Sign::Lt | Sign::Le | Sign::Gt | Sign::Ge => check_order(at, t, u),
        Sign::Member => check_member(at, t, u),
    }
}

// ---- types

fn bool_type(alloc: Global) -> Result<BoxedTy, CheckFault>
    ensures { IsType result (Ok TBool) }
{
    let t = BoxedTy::new(alloc, Ty::Bool)?;
    Ok(t)
}

/// The type of the members of a set.
pub(crate) fn set_at(at: usize, t: BoxedTy) -> Result<BoxedTy, CheckFault>
    ensures { IsType result (set_at at t) }
{
    match t.into_inner() {
        Ty::Set(member) => Ok(member),
        _ => Err(CheckFault::At {
            at,
            why: CheckWhy::NotASet,
        }),
    }
}

/// The type, which must be that of truth values.
pub(crate) fn bool_at(at: usize, t: BoxedTy) -> Result<BoxedTy, CheckFault>
    ensures { IsType result (bool_at at t) }
{
    check_bool(at, t.get())?;
    Ok(t)
}

/// The type of `flatten`.
pub(crate) fn flat_type(at: usize, t: BoxedTy) -> Result<BoxedTy, CheckFault>
    ensures { IsType result (flat_type at t) }
{
    let member = set_at(at, t)?;
    check_set(at, member.get())?;
    Ok(member)
}

/// The type of `exists(e)`.
pub(crate) fn some_member_type(alloc: Global, at: usize, t: BoxedTy) -> Result<BoxedTy, CheckFault>
    ensures { IsType result (and_then (set_at at t) (λ _. Ok TBool)) }
{
    check_set(at, t.get())?;
    bool_type(alloc)
}

/// The type of an operand joined to what stands before it.
pub(crate) fn joined(join: Join, at: usize, t: BoxedTy, u: BoxedTy) -> Result<BoxedTy, CheckFault>
    ensures { IsType result (join_type join at t u) }
{
    match join {
        Join::Sets => check_sets(at, t.get(), u.get())?,
        Join::Bools => check_bools(at, t.get(), u.get())?,
    }
    Ok(t)
}

/// The type of a comparison.
pub(crate) fn compared(
    alloc: Global,
    sign: Sign,
    at: usize,
    t: BoxedTy,
    u: BoxedTy,
) -> Result<BoxedTy, CheckFault>
    ensures { IsType result (compare_type sign at t u) }
{
    check_comparison(sign, at, t.get(), u.get())?;
    bool_type(alloc)
}

/// The type of a select with a head of this type.
pub(crate) fn set_of(alloc: Global, at: usize, t: BoxedTy) -> Result<BoxedTy, CheckFault>
    ensures { IsType result (sized at (TSet t)) }
{
    if !is_small_set(t.get()) {
        return Err(CheckFault::At {
            at,
            why: CheckWhy::TypeTooLarge,
        });
    }
    let set = BoxedTy::new(alloc, Ty::Set(t))?;
    Ok(set)
}

/// The type of a struct with fields of these types.
pub(crate) fn struct_of(alloc: Global, at: usize, fields: Fields) -> Result<BoxedTy, CheckFault>
    ensures { IsType result (struct_of at (of_type_fields fields)) }
{
    if fields.len() == 0 {
        return Err(CheckFault::At {
            at,
            why: CheckWhy::TooManyFields,
        });
    }
    if !is_small_struct(&fields) {
        return Err(CheckFault::At {
            at,
            why: CheckWhy::TypeTooLarge,
        });
    }
    let t = BoxedTy::new(alloc, Ty::Struct(fields))?;
    Ok(t)
}

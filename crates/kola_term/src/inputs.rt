//! What a node takes of its input type: a part of it, or the input type of a child.

ghost use Rattle.std.specs.Prelude.{◌≡◌, IfOk, option_and_then};
ghost use Rattle.std.specs.Option.{option_map};
ghost use Rattle.kola_values.specs.Types.{TSet, TPair};
ghost use Rattle.kola_values.specs.Views.{type_tree};
ghost use Rattle.kola_schema.specs.SchemaViews.{type_at};
ghost use Rattle.kola_term.specs.Typing.{first_type, second_type, member_type, twin_type, iter_type, join_type, pair_of};

use kola_core::Memory;
use kola_values::Ty;
use std::alloc::Global;

/// The first part of a pair.
pub(crate) fn first(t: &Ty) -> Option<&Ty>
    ensures { option_map type_at result ≡ first_type (type_tree t.now) }
{
    match t {
        Ty::Pair(first, _) => Some(first.get()),
        _ => None,
    }
}

/// The second part of a pair.
pub(crate) fn second(t: &Ty) -> Option<&Ty>
    ensures { option_map type_at result ≡ second_type (type_tree t.now) }
{
    match t {
        Ty::Pair(_, second) => Some(second.get()),
        _ => None,
    }
}

/// The type of a set's members.
pub(crate) fn member(t: &Ty) -> Option<&Ty>
    ensures { option_map type_at result ≡ member_type (type_tree t.now) }
{
    match t {
        Ty::Set(member) => Some(member.get()),
        _ => None,
    }
}

/// The type itself, where it is a set.
fn as_set(t: &Ty) -> Option<&Ty>
    ensures { option_map type_at result ≡ option_map TSet (member_type (type_tree t.now)) }
{
    match t {
        Ty::Set(_) => Some(t),
        _ => None,
    }
}

/// The members of a set of sets.
pub(crate) fn inner_set(t: &Ty) -> Option<&Ty>
    ensures { option_map type_at result
        ≡ option_map TSet (option_and_then member_type (member_type (type_tree t.now))) }
{
    let inner = member(t)?;
    as_set(inner)
}

/// The type of both parts of a pair, where they are the same.
pub(crate) fn twin(t: &Ty) -> Option<&Ty>
    ensures { option_map type_at result ≡ twin_type (type_tree t.now) }
{
    match t {
        Ty::Pair(first, second) => {
            if first.get().is(second.get()) {
                Some(first.get())
            } else {
                None
            }
        }
        _ => None,
    }
}

/// The type of both parts of a pair, where they are the same type of sets.
pub(crate) fn twin_set(t: &Ty) -> Option<&Ty>
    ensures { option_map type_at result ≡ option_map TSet (option_and_then member_type (twin_type (type_tree t.now))) }
{
    let set = twin(t)?;
    as_set(set)
}

/// The type of a pair's first part, where the second is a set of such values.
pub(crate) fn twin_member(t: &Ty) -> Option<&Ty>
    ensures { option_map type_at result ≡ option_and_then twin_type (iter_type (type_tree t.now)) }
{
    let Ty::Pair(value, set) = t else {
        return None;
    };
    let member = member(set.get())?;
    if value.get().is(member) {
        Some(value.get())
    } else {
        None
    }
}

/// A copy of a part of a type.
pub(crate) fn copied(part: Option<&Ty>) -> Result<Option<Ty>, Memory>
    ensures { IfOk result (λ o. option_map type_tree o ≡ option_map type_at part.entry) }
{
    match part {
        Some(t) => {
            let t = t.copy()?;
            Ok(Some(t))
        }
        None => Ok(None),
    }
}

/// A pair of copies of two types.
fn copied_pair(alloc: Global, t: &Ty, u: &Ty) -> Result<Option<Ty>, Memory>
    ensures { IfOk result (λ o. option_map type_tree o ≡ Some (TPair (type_tree t.now) (type_tree u.now))) }
{
    let first = t.copy()?;
    let pair = beside(alloc, first, u)?;
    Ok(Some(pair))
}

/// A pair of a type and a copy of another.
pub(crate) fn beside(alloc: Global, first: Ty, t: &Ty) -> Result<Ty, Memory>
    ensures { IfOk result (λ r. type_tree r ≡ TPair (type_tree first) (type_tree t.now)) }
{
    let second = t.copy()?;
    Ty::pair_of(alloc, first, second)
}

/// A pair turned round.
pub(crate) fn turned(alloc: Global, t: &Ty) -> Result<Option<Ty>, Memory>
    ensures { IfOk result
        (λ o. option_map type_tree o ≡ pair_of (second_type (type_tree t.now)) (first_type (type_tree t.now))) }
{
    let Ty::Pair(first, second) = t else {
        return Ok(None);
    };
    copied_pair(alloc, second.get(), first.get())
}

/// An environment and a set, as the environment and a member.
pub(crate) fn with_member(alloc: Global, t: &Ty) -> Result<Option<Ty>, Memory>
    ensures { IfOk result (λ o. option_map type_tree o ≡ iter_type (type_tree t.now)) }
{
    let Ty::Pair(environment, set) = t else {
        return Ok(None);
    };
    let Ty::Set(member) = set.get() else {
        return Ok(None);
    };
    copied_pair(alloc, environment.get(), member.get())
}

/// Two sets, as a member of each.
pub(crate) fn members_of_both(alloc: Global, t: &Ty) -> Result<Option<Ty>, Memory>
    ensures { IfOk result (λ o. option_map type_tree o ≡ join_type (type_tree t.now)) }
{
    let Ty::Pair(left, right) = t else {
        return Ok(None);
    };
    let (Ty::Set(x), Ty::Set(y)) = (left.get(), right.get()) else {
        return Ok(None);
    };
    copied_pair(alloc, x.get(), y.get())
}

/// Of two sets, a member of the first.
pub(crate) fn member_of_first(t: &Ty) -> Option<&Ty>
    ensures { option_map type_at result ≡ option_and_then first_type (join_type (type_tree t.now)) }
{
    let Ty::Pair(left, right) = t else {
        return None;
    };
    let (Ty::Set(x), Ty::Set(_)) = (left.get(), right.get()) else {
        return None;
    };
    Some(x.get())
}

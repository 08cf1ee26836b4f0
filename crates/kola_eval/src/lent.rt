//! Values that are lent: by the database, by a term, or by what is at work; a pair of two such is made of nothing but them.
ghost use Rattle.std.specs.Prelude.{◌≡◌, IfOk, map};
ghost use Rattle.kola_values.specs.Order.{cmp};
ghost use Rattle.kola_values.specs.Sets.{has, members};
ghost use Rattle.kola_values.specs.Views.{value_tree};
ghost use Rattle.kola_term.specs.Meaning.{left, right};
ghost use Rattle.kola_eval.specs.Lending.{lent_tree, set_members};

use kola_core::{Memory, Text};
use kola_values::{BoxedValue, Set, Value, cmp_values};
use std::alloc::Global;
use std::cmp::Ordering;

/// A value that is lent.
#[derive(Clone, Copy)]
pub(crate) enum Lent<'a> {
    Unit,
    /// The empty set.
    Empty,
    Int(i64),
    Bool(bool),
    Str(&'a Text),
    Set(&'a Set),
    /// A value that stands whole.
    Whole(&'a Value),
    /// A pair whose parts stand apart.
    Pair(&'a Lent<'a>, &'a Lent<'a>),
}

// The first part of a pair.
pub(crate) fn first<'a>(v: Lent<'a>) -> Lent<'a>
    ensures { lent_tree result ≡ left (lent_tree v.entry) }
{
    match v {
        Lent::Pair(a, _) => *a,
        Lent::Whole(whole) => match whole {
            Value::Pair(a, _) => Lent::Whole(a.get()),
            _ => Lent::Unit,
        },
        _ => Lent::Unit,
    }
}

// The second part of a pair.
pub(crate) fn second<'a>(v: Lent<'a>) -> Lent<'a>
    ensures { lent_tree result ≡ right (lent_tree v.entry) }
{
    match v {
        Lent::Pair(_, b) => *b,
        Lent::Whole(whole) => match whole {
            Value::Pair(_, b) => Lent::Whole(b.get()),
            _ => Lent::Unit,
        },
        _ => Lent::Unit,
    }
}

// The set that a value is.
pub(crate) fn set_in<'a>(v: Lent<'a>) -> Option<&'a Set>
    ensures { set_members result ≡ members (lent_tree v.entry) }
{
    match v {
        Lent::Set(set) => Some(set),
        Lent::Whole(whole) => match whole {
            Value::Set(set) => Some(set),
            _ => None,
        },
        _ => None,
    }
}

// The members of a set.
pub(crate) fn members_in<'a>(v: Lent<'a>) -> &'a [Value]
    ensures { map value_tree result.now ≡ members (lent_tree v.entry) }
{
    match set_in(v) {
        Some(set) => set.as_slice(),
        None => &[],
    }
}

// The set that a value is, which shares its members; else the empty set.
pub(crate) fn set_of_its_own(alloc: Global, v: Lent<'_>) -> Result<Set, Memory>
    ensures { IfOk result (λ s. s ≡ members (lent_tree v.entry)) }
{
    match set_in(v) {
        Some(set) => set.copy(),
        None => Set::new(alloc),
    }
}

// The value as one that stands by itself.
#[cycle(owned)]
pub(crate) fn owned(alloc: Global, v: Lent<'_>) -> Result<Value, Memory>
    ensures { IfOk result (λ w. value_tree w ≡ lent_tree v.entry) }
{
    match v {
        Lent::Unit => Ok(Value::Unit),
        Lent::Empty => Ok(Value::Set(Set::new(alloc)?)),
        Lent::Int(n) => Ok(Value::Int(n)),
        Lent::Bool(b) => Ok(Value::Bool(b)),
        Lent::Str(text) => Ok(Value::Str(text.copy()?)),
        Lent::Set(set) => Ok(Value::Set(set.copy()?)),
        Lent::Whole(whole) => whole.copy(),
        Lent::Pair(a, b) => Ok(Value::Pair(boxed(alloc, *a)?, boxed(alloc, *b)?)),
    }
}

#[cycle(owned)]
pub(crate) fn boxed(alloc: Global, v: Lent<'_>) -> Result<BoxedValue, Memory>
    ensures { IfOk result (λ b. b ≡ lent_tree v.entry) }
{
    let value = owned(alloc, v)?;
    BoxedValue::new(alloc, value)
}

// A whole integer, truth value or text by itself, and any other value as it is.
fn opened<'a>(v: Lent<'a>) -> Lent<'a>
    ensures { lent_tree result ≡ lent_tree v.entry }
{
    match v {
        Lent::Whole(whole) => match whole {
            Value::Int(n) => Lent::Int(*n),
            Value::Bool(b) => Lent::Bool(*b),
            Value::Str(text) => Lent::Str(text),
            _ => v,
        },
        _ => v,
    }
}

// The order of two values of which a part stands apart.
fn compared_whole(alloc: Global, v: Lent<'_>, w: Lent<'_>) -> Result<Ordering, Memory>
    ensures { IfOk result (λ o. o ≡ cmp (lent_tree v.entry) (lent_tree w.entry)) }
{
    let v = boxed(alloc, v)?;
    let w = boxed(alloc, w)?;
    Ok(cmp_values(v.get(), w.get()))
}

// The order of two values.
pub(crate) fn compared(alloc: Global, v: Lent<'_>, w: Lent<'_>) -> Result<Ordering, Memory>
    ensures { IfOk result (λ o. o ≡ cmp (lent_tree v.entry) (lent_tree w.entry)) }
{
    match (opened(v), opened(w)) {
        (Lent::Int(m), Lent::Int(n)) => Ok(m.cmp(&n)),
        (Lent::Bool(b), Lent::Bool(c)) => Ok(b.cmp(&c)),
        (Lent::Str(s), Lent::Str(t)) => Ok(s.cmp_bytes(t)),
        (Lent::Whole(v), Lent::Whole(w)) => Ok(cmp_values(v, w)),
        (v, w) => compared_whole(alloc, v, w),
    }
}

// Whether a value is a member of a set.
pub(crate) fn is_member(alloc: Global, v: Lent<'_>, set: Lent<'_>) -> Result<bool, Memory>
    ensures { IfOk result (λ b. b ≡ has (lent_tree v.entry) (members (lent_tree set.entry))) }
{
    let Some(set) = set_in(set) else {
        return Ok(false);
    };
    match v {
        Lent::Whole(v) => Ok(set.holds(v)),
        v => {
            let v = boxed(alloc, v)?;
            Ok(set.holds(v.get()))
        }
    }
}

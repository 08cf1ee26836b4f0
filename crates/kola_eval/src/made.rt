//! Sets that are built of the values of a list, and what is added to such a list.
ghost use Rattle.std.specs.Prelude.{◌≡◌, ◌∷◌, ◌++◌, [], map, filter, flat_map, not, IfOk, OnOk};
ghost use Rattle.kola_values.specs.Values.{VPair};
ghost use Rattle.kola_values.specs.Sets.{has, members, set_of};
ghost use Rattle.kola_values.specs.Views.{value_tree};
ghost use Rattle.kola_term.specs.Meaning.{left, right};
ghost use Rattle.kola_eval.specs.Lending.{lent_tree, held_tree, set_tree};

use crate::held::Held;
use crate::lent::{Lent, first, members_in, second, set_of_its_own};
use kola_core::Memory;
use kola_values::{BoxedValue, Set, Value};
use std::alloc::Global;

// A set in a box.
fn boxed_set(alloc: Global, set: Set) -> Result<BoxedValue, Memory>
    ensures { IfOk result (λ b. b ≡ set_tree set) }
{
    BoxedValue::new(alloc, Value::Set(set))
}

// The set of the values of a list.
pub(crate) fn set_of(members: Vec<Value>) -> Result<BoxedValue, Memory>
    ensures { IfOk result (λ b. b ≡ set_of (map value_tree members.items)) }
{
    let alloc = *members.allocator();
    let set = Set::from_members(alloc, members)?;
    boxed_set(alloc, set)
}

// The union of a pair of sets.
pub(crate) fn united(alloc: Global, pair: Lent<'_>) -> Result<BoxedValue, Memory>
    ensures { IfOk result
        (λ b. b ≡ set_of (members (left (lent_tree pair.entry)) ++ members (right (lent_tree pair.entry)))) }
{
    let a = set_of_its_own(alloc, first(pair))?;
    let b = set_of_its_own(alloc, second(pair))?;
    let set = a.union(&b)?;
    boxed_set(alloc, set)
}

// The intersection of a pair of sets.
pub(crate) fn shared(alloc: Global, pair: Lent<'_>) -> Result<BoxedValue, Memory>
    ensures { IfOk result
        (λ b. b ≡ set_of (filter (λ x. has x (members (right (lent_tree pair.entry))))
        (members (left (lent_tree pair.entry))))) }
{
    let a = set_of_its_own(alloc, first(pair))?;
    let b = set_of_its_own(alloc, second(pair))?;
    a.well_formed();
    let set = a.isect(&b)?;
    boxed_set(alloc, set)
}

// The difference of a pair of sets.
pub(crate) fn parted(alloc: Global, pair: Lent<'_>) -> Result<BoxedValue, Memory>
    ensures { IfOk result
        (λ b. b ≡ set_of (filter (λ x. not (has x (members (right (lent_tree pair.entry)))))
        (members (left (lent_tree pair.entry))))) }
{
    let a = set_of_its_own(alloc, first(pair))?;
    let b = set_of_its_own(alloc, second(pair))?;
    a.well_formed();
    let set = a.minus(&b)?;
    boxed_set(alloc, set)
}

// Adds copies of the values.
fn push_copies(made: &mut Vec<Value>, values: &[Value]) -> Result<(), Memory>
    ensures { OnOk result (map value_tree made.new.items ≡ map value_tree made.old.items ++ map value_tree
        values.now) }
{
    for value in values {
        made.push(value.copy()?)?;
    }
    Ok(())
}

// The union of the sets in a list.
pub(crate) fn joined(alloc: Global, sets: &[Value]) -> Result<BoxedValue, Memory>
    ensures { IfOk result (λ b. b ≡ set_of (flat_map members (map value_tree sets.now))) }
{
    let mut made = Vec::new(alloc);
    for set in sets {
        push_copies(&mut made, members_in(Lent::Whole(set)))?;
    }
    set_of(made)
}

// Adds a value.
pub(crate) fn push_held(alloc: Global, made: &mut Vec<Value>, value: Held<'_>) -> Result<(), Memory>
    ensures { OnOk result (map value_tree made.new.items ≡ map value_tree made.old.items ++ held_tree
        value.entry ∷ []) }
{
    let value = value.into_value(alloc)?;
    made.push(value)?;
    Ok(())
}

// Adds a pair.
fn push_pair(made: &mut Vec<Value>, a: BoxedValue, b: BoxedValue) -> Result<(), Memory>
    ensures { OnOk result (map value_tree made.new.items ≡ map value_tree made.old.items ++ VPair a b ∷ []) }
{
    made.push(Value::Pair(a, b))?;
    Ok(())
}

// Adds the pair of a value and a copy of another.
fn push_beside(
    alloc: Global,
    made: &mut Vec<Value>,
    a: &BoxedValue,
    b: &Value,
) -> Result<(), Memory>
    ensures { OnOk result (map value_tree made.new.items
        ≡ map value_tree made.old.items ++ VPair a.now (value_tree b.now) ∷ []) }
{
    let b = BoxedValue::new(alloc, b.copy()?)?;
    let a = a.copy()?;
    push_pair(made, a, b)
}

// Adds the pair of a copy of a value and another.
pub(crate) fn push_before(
    alloc: Global,
    made: &mut Vec<Value>,
    a: &Value,
    b: BoxedValue,
) -> Result<(), Memory>
    ensures { OnOk result (map value_tree made.new.items
        ≡ map value_tree made.old.items ++ VPair (value_tree a.now) b ∷ []) }
{
    let a = BoxedValue::new(alloc, a.copy()?)?;
    push_pair(made, a, b)
}

// Adds the pairs of a value with each value of a list.
pub(crate) fn push_pairs(
    alloc: Global,
    made: &mut Vec<Value>,
    a: &BoxedValue,
    values: &[Value],
) -> Result<(), Memory>
    ensures { OnOk result (map value_tree made.new.items
        ≡ map value_tree made.old.items ++ map (VPair a.now) (map value_tree values.now)) }
{
    for b in values {
        push_beside(alloc, made, a, b)?;
    }
    Ok(())
}

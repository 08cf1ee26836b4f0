//! Sets from any list of members, membership, union, intersection and difference.
ghost use Rattle.std.specs.Prelude.{◌≡◌, [], ◌++◌, cond, map, filter, not, IfOk, OnOk};
ghost use Rattle.kola_values.specs.Sets.{canon, has};
ghost use Rattle.kola_values.specs.Merging.{merged};
ghost use Rattle.kola_values.specs.Views.{value_tree};

use crate::{Set, Value, cmp_values};
use kola_core::Memory;
use std::alloc::Global;
use std::cmp::Ordering;

impl Set {
    /// The set of the values of a list, which may stand in any order and repeat: a value that stands twice is kept once. The list is
    /// sorted where it stands, so that its members are neither copied nor moved to other memory.
    pub fn from_members(alloc: Global, members: Vec<Value>) -> Result<Set, Memory>
        ensures { IfOk result (λ s. s ≡ canon (map value_tree members.items)) }
    {
        let mut members = members;
        members.sort_unstable_by(|a, b| cmp_values(a, b));
        members.dedup_by(|a, b| cmp_values(a, b).is_eq());
        Set::from_rising(members)
    }

    /// Whether a value is a member.
    pub fn holds(&self, v: &Value) -> bool
        ensures { result ≡ has (value_tree v.now) self.now }
    {
        self.well_formed();
        self.as_slice()
            .binary_search_by(|member| cmp_values(member, v))
            .is_ok()
    }

    /// The values that are members of this set or of the other.
    pub fn union(&self, other: &Set) -> Result<Set, Memory>
        ensures { IfOk result (λ s. s ≡ canon (self.now ++ other.now)) }
    {
        self.merged(other, true, true, true)
    }

    /// The values that are members of both sets.
    pub fn isect(&self, other: &Set) -> Result<Set, Memory>
        ensures { IfOk result (λ s. s ≡ filter (λ v. has v other.now) self.now) }
    {
        self.well_formed();
        self.merged(other, false, true, false)
    }

    /// The members of this set that are no members of the other.
    pub fn minus(&self, other: &Set) -> Result<Set, Memory>
        ensures { IfOk result (λ s. s ≡ filter (λ v. not (has v other.now)) self.now) }
    {
        self.well_formed();
        self.merged(other, true, false, false)
    }

    // The members of the first set alone, of both and of the second alone, as far as each is wanted.
    fn merged(&self, other: &Set, first: bool, both: bool, second: bool) -> Result<Set, Memory>
        ensures { IfOk result (λ s. s ≡ merged first both second self.now other.now) }
    {
        self.well_formed();
        other.well_formed();
        let (vs, ws) = (self.as_slice(), other.as_slice());
        let mut members = Vec::new(self.allocator());
        let (mut i, mut j) = (0, 0);
        while i < vs.len() && j < ws.len() {
            match cmp_values(&vs[i], &ws[j]) {
                Ordering::Less => {
                    push_copies(&mut members, first, &vs[i..i + 1])?;
                    i += 1;
                }
                Ordering::Equal => {
                    push_copies(&mut members, both, &vs[i..i + 1])?;
                    i += 1;
                    j += 1;
                }
                Ordering::Greater => {
                    push_copies(&mut members, second, &ws[j..j + 1])?;
                    j += 1;
                }
            }
        }
        push_copies(&mut members, first, &vs[i..])?;
        push_copies(&mut members, second, &ws[j..])?;
        Set::from_rising(members)
    }
}

// Copies of the values at the end of a list, if they are wanted.
fn push_copies(list: &mut Vec<Value>, wanted: bool, values: &[Value]) -> Result<(), Memory>
    ensures { OnOk result (map value_tree list.new.items
        ≡ map value_tree list.old.items ++ cond wanted (map value_tree values.now) []) }
{
    if !wanted {
        return Ok(());
    }
    for value in values {
        list.push(value.copy()?)?;
    }
    Ok(())
}

//! Values, with sets that rise strictly.
ghost use Rattle.std.specs.Prelude.{◌≡◌, ◌↔◌, IsTrue, [], ◌∷◌, ◌++◌, map, IfOk, OnOk, OnErr, length, slice_get};
ghost use Rattle.std.specs.Option.{option_map};
ghost use Rattle.kola_values.specs.Values.{VPair};
ghost use Rattle.kola_values.specs.Sets.{Rising, Each};
ghost use Rattle.kola_values.specs.WellFormed.{WellFormed};
ghost use Rattle.kola_values.specs.Views.{value_tree, value_entry, value_entry_at, value_at};

use kola_core::{Memory, Name, Text};
use std::alloc::Global;
use std::marker::Model;
use std::rc::Rc;

/// A value: of a query or of a term. Structs occur in queries only, pairs and `Unit` in terms only.
#[cycle(value)]
#[derive(Drop)]
pub enum Value {
    /// The one value of type `unit`.
    Unit,
    /// An integer.
    Int(i64),
    /// A truth value.
    Bool(bool),
    /// A string.
    Str(Text),
    /// An object: its class and its id.
    Obj(Name, u32),
    /// A pair.
    Pair(BoxedValue, BoxedValue),
    /// Values by labels.
    Struct(ValueFields),
    /// A set.
    Set(Set),
}

/// A value behind a count of its owners: a copy shares it.
#[cycle(value)]
#[derive(Drop)]
pub struct BoxedValue {
    inner: Rc<Value>,
}

/// A list of labels with values.
#[cycle(value)]
#[derive(Drop)]
pub struct ValueFields {
    entries: Vec<(Name, Value)>,
}

/// A set: a list of values that rises strictly in their order. A copy shares the members.
#[cycle(value)]
#[derive(Drop)]
pub struct Set {
    members: Rc<Vec<Value>>,
}

impl Model for BoxedValue {
    ghost use Rattle.kola_values.specs.Values.{ValueTree};
    ghost use Rattle.kola_values.specs.Models.Total.{value_code};

    ghost Value = { ValueTree };

    ghost coded = { value_code };

    ghost use Rattle.kola_values.specs.Views.{value_tree};

    ghost view = { λ a. value_tree a.inner.value };

    ghost use Rattle.kola_values.specs.WellFormed.{WellFormed};

    ghost invariant = { λ a. WellFormed (value_tree a.inner.value) };

    ghost use Rattle.kola_values.specs.Models.Weights.{weight};

    ghost size = { weight };

    ghost use Rattle.kola_values.specs.Models.Falls.{value_deep_le};
    ghost use Rattle.std.proofs.Common.{arith};

    ghost size_decreases = { λ a h. omega (arith, value_deep_le a.inner.value) };
}

impl Model for ValueFields {
    ghost use Rattle.std.specs.Prelude.{List, ℕ};
    ghost use Rattle.std.specs.Coded.{coded_list, coded×, coded_ℕ};
    ghost use Rattle.kola_values.specs.Values.{ValueTree};
    ghost use Rattle.kola_values.specs.Models.Total.{value_code};

    ghost Value = { List (List ℕ × ValueTree) };

    ghost coded = { coded_list (coded× (coded_list coded_ℕ) value_code) };

    ghost use Rattle.std.specs.Prelude.{map};
    ghost use Rattle.kola_values.specs.Views.{value_entry};

    ghost view = { λ a. map value_entry a.entries.items };

    ghost use Rattle.kola_values.specs.Sets.{Each};
    ghost use Rattle.kola_values.specs.WellFormed.{WellFormed};

    ghost invariant = { λ a. Each (λ f. WellFormed f.1) (map value_entry a.entries.items) };

    ghost use Rattle.kola_values.specs.Models.Weights.{value_entries_weight};

    ghost size = { value_entries_weight };

    ghost use Rattle.kola_values.specs.Models.Falls.{value_entries_le};
    ghost use Rattle.std.proofs.Common.{arith};

    ghost size_decreases = { λ a h. omega (arith, value_entries_le a.entries.items) };
}

impl Model for Set {
    ghost use Rattle.std.specs.Prelude.{List};
    ghost use Rattle.std.specs.Coded.{coded_list};
    ghost use Rattle.kola_values.specs.Values.{ValueTree};
    ghost use Rattle.kola_values.specs.Models.Total.{value_code};

    ghost Value = { List ValueTree };

    ghost coded = { coded_list value_code };

    ghost use Rattle.std.specs.Prelude.{map};
    ghost use Rattle.kola_values.specs.Views.{value_tree};

    ghost view = { λ a. map value_tree a.members.value.items };

    ghost use Rattle.kola_values.specs.Sets.{Rising, Each};
    ghost use Rattle.kola_values.specs.WellFormed.{WellFormed};

    ghost invariant = { λ a. Rising (map value_tree a.members.value.items)
        × Each WellFormed (map value_tree a.members.value.items) };

    ghost use Rattle.kola_values.specs.Models.Weights.{values_weight};

    ghost size = { values_weight };

    ghost use Rattle.kola_values.specs.Models.Falls.{members_le};
    ghost use Rattle.std.proofs.Common.{arith};

    ghost size_decreases = { λ a h. omega (arith, members_le a.members.value.items) };
}

// What every value of a list keeps.
fn all_well_formed(values: &[Value])
    ensures { Each WellFormed (map value_tree values.now) }
{
    for value in values {
        value.well_formed();
    }
}

impl Value {
    /// What every value keeps: the sets in it rise strictly, its integers have 64 bits and its ids 32.
    pub fn well_formed(&self)
        ensures { WellFormed (value_tree self.now) }
    {
        match self {
            Value::Int(n) => {
                let _n = *n;
            }
            Value::Obj(_, id) => {
                let _id = *id;
            }
            Value::Pair(a, b) => {
                a.well_formed();
                b.well_formed();
            }
            Value::Struct(fields) => fields.well_formed(),
            Value::Set(set) => set.well_formed(),
            _ => {}
        }
    }

    /// The pair of two values.
    pub fn pair_of(alloc: Global, a: Value, b: Value) -> Result<Value, Memory>
        ensures { IfOk result (λ v. value_tree v ≡ VPair (value_tree a) (value_tree b)) }
    {
        let a = BoxedValue::new(alloc, a)?;
        let b = BoxedValue::new(alloc, b)?;
        Ok(Value::Pair(a, b))
    }

    /// A value equal to it. Structs are copied field by field, all else is shared.
    #[cycle(copy)]
    pub fn copy(&self) -> Result<Value, Memory>
        ensures { IfOk result (λ v. value_tree v ≡ value_tree self.now) }
    {
        match self {
            Value::Unit => Ok(Value::Unit),
            Value::Int(n) => Ok(Value::Int(*n)),
            Value::Bool(b) => Ok(Value::Bool(*b)),
            Value::Str(text) => Ok(Value::Str(text.copy()?)),
            Value::Obj(class, id) => Ok(Value::Obj(class.copy()?, *id)),
            Value::Pair(a, b) => Ok(Value::Pair(a.copy()?, b.copy()?)),
            Value::Struct(fields) => Ok(Value::Struct(fields.copy()?)),
            Value::Set(set) => Ok(Value::Set(set.copy()?)),
        }
    }
}

impl BoxedValue {
    /// What every value keeps.
    pub fn well_formed(&self)
        ensures { WellFormed self.now }
    {
        let _inner = &self.inner;
    }

    /// A value in a box.
    pub fn new(alloc: Global, value: Value) -> Result<BoxedValue, Memory>
        ensures { IfOk result (λ b. b ≡ value_tree value) }
    {
        value.well_formed();
        let inner = Rc::new(alloc, value)?;
        Ok(BoxedValue { inner })
    }

    /// The value in the box.
    pub fn get(&self) -> &Value
        ensures { value_tree result.now ≡ self.now }
    {
        self.inner.as_ref()
    }

    /// A copy of the value, which shares it: nothing of it is copied.
    pub fn copy(&self) -> Result<BoxedValue, Memory>
        ensures { IfOk result (λ b. b ≡ self.now) }
    {
        let inner = self.inner.clone()?;
        Ok(BoxedValue { inner })
    }
}

impl ValueFields {
    /// What the values of the fields keep.
    pub fn well_formed(&self)
        ensures { Each (λ f. WellFormed f.1) self.now }
    {
        let _entries = &self.entries;
    }

    /// No fields.
    pub fn new(alloc: Global) -> ValueFields
        ensures { result ≡ [] }
    {
        ValueFields {
            entries: Vec::new(alloc),
        }
    }

    /// The number of fields.
    pub fn len(&self) -> usize
        ensures { result ≡ length self.now }
    {
        self.entries.len()
    }

    /// The field at place `n`, counted from 0; `None` past the end.
    pub fn get(&self, n: usize) -> Option<&(Name, Value)>
        ensures { option_map value_entry_at result ≡ slice_get self.now n }
    {
        self.entries.get(n)
    }

    /// The fields in their order.
    pub fn as_slice(&self) -> &[(Name, Value)]
        ensures { map value_entry result.now ≡ self.now }
    {
        self.entries.as_slice()
    }

    /// Adds a field at the end. Where memory is wanted, the list stays as it was and the field is dropped.
    pub fn push(&mut self, entry: (Name, Value)) -> Result<(), Memory>
        ensures ok { OnOk result (self.new ≡ self.old ++ value_entry entry ∷ []) }
        ensures err { OnErr result (self.new ≡ self.old) }
    {
        entry.1.well_formed();
        self.entries.push(entry)?;
        Ok(())
    }

    /// A copy of the list.
    #[cycle(copy)]
    pub fn copy(&self) -> Result<ValueFields, Memory>
        ensures { IfOk result (λ f. f ≡ self.now) }
    {
        let mut entries = Vec::new(*self.entries.allocator());
        for (label, v) in &self.entries {
            entries.push((label.copy()?, v.copy()?))?;
        }
        Ok(ValueFields { entries })
    }
}

impl Set {
    /// What every set keeps: it rises strictly, and so do the sets in its members.
    pub fn well_formed(&self)
        ensures rises { Rising self.now }
        ensures members { Each WellFormed self.now }
    {
        let _members = &self.members;
    }

    /// The empty set.
    pub fn new(alloc: Global) -> Result<Set, Memory>
        ensures { IfOk result (λ s. s ≡ []) }
    {
        let members = Rc::new(alloc, Vec::new(alloc))?;
        Ok(Set { members })
    }

    /// The set whose members are a list that rises strictly. The members stay where they are.
    pub fn from_rising(members: Vec<Value>) -> Result<Set, Memory>
        requires { Rising (map value_tree members.items) }
        ensures { IfOk result (λ s. s ≡ map value_tree members.items) }
    {
        all_well_formed(members.as_slice());
        let members = Rc::new(*members.allocator(), members)?;
        Ok(Set { members })
    }

    /// The members in rising order, as a `Vec`: they themselves where no other set shares them, and else copies.
    pub fn into_vec(self) -> Result<Vec<Value>, Memory>
        ensures { IfOk result (λ v. map value_tree v.items ≡ self) }
    {
        match Rc::try_unwrap(self.members) {
            Ok(members) => Ok(members),
            Err(shared) => copies(shared.as_slice(), *shared.allocator()),
        }
    }

    // The allocator that the set keeps.
    pub(crate) fn allocator(&self) -> Global {
        *self.members.allocator()
    }

    /// The members in rising order.
    pub fn as_slice(&self) -> &[Value]
        ensures { map value_tree result.now ≡ self.now }
    {
        self.members.as_slice()
    }

    /// The number of members.
    pub fn len(&self) -> usize
        ensures { result ≡ length self.now }
    {
        self.members.len()
    }

    /// Whether there is no member.
    pub fn is_empty(&self) -> bool
        ensures { IsTrue result ↔ (self.now ≡ []) }
    {
        self.members.is_empty()
    }

    /// The member at place `n` in rising order, counted from 0; `None` past the end.
    pub fn get(&self, n: usize) -> Option<&Value>
        ensures { option_map value_at result ≡ slice_get self.now n }
    {
        self.members.get(n)
    }

    /// A copy of the set, which shares its members: none is copied.
    pub fn copy(&self) -> Result<Set, Memory>
        ensures { IfOk result (λ s. s ≡ self.now) }
    {
        let members = self.members.clone()?;
        Ok(Set { members })
    }
}

// Copies of the values of a list.
fn copies(values: &[Value], alloc: Global) -> Result<Vec<Value>, Memory>
    ensures { IfOk result (λ v. map value_tree v.items ≡ map value_tree values.now) }
{
    let mut all = Vec::new(alloc);
    for value in values {
        all.push(value.copy()?)?;
    }
    Ok(all)
}

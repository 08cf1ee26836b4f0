//! Types.
ghost use Rattle.std.specs.Prelude.{◌≡◌, ◌+◌, ◌-◌, ◌^◌, min, [], ◌∷◌, ◌++◌, map, IfOk, OnOk, OnErr, length, slice_get};
ghost use Rattle.std.specs.Option.{option_map};
ghost use Rattle.kola_values.specs.Types.{of_type_fields, same_type, same_types, type_nodes, types_nodes, TSet, TPair};
ghost use Rattle.kola_values.specs.Views.{type_tree, type_entry, type_entry_at};

use kola_core::{Memory, Name};
use std::alloc::Global;
use std::marker::Model;

/// A type: of a query, or of a term's input or output. Structs occur in queries only, pairs and `Unit` in terms only, and variables in
/// rules only.
#[cycle(ty)]
#[derive(Drop)]
pub enum Ty {
    /// A signed number of 64 bits.
    Int,
    /// A text.
    Str,
    /// A truth value.
    Bool,
    /// The type of one value.
    Unit,
    /// The objects of a class.
    Class(Name),
    /// A type variable of a rule.
    Var(Name),
    /// The sets of values of a type.
    Set(BoxedTy),
    /// The pairs of values of two types.
    Pair(BoxedTy, BoxedTy),
    /// Values by labels.
    Struct(Fields),
}

/// A boxed type.
#[cycle(ty)]
#[derive(Drop)]
pub struct BoxedTy {
    inner: Box<Ty>,
}

/// A list of labels with types.
#[cycle(ty)]
#[derive(Drop)]
pub struct Fields {
    entries: Vec<(Name, Ty)>,
}

impl Model for BoxedTy {
    ghost use Rattle.kola_values.specs.Types.{TypeTree};
    ghost use Rattle.kola_values.specs.Models.TypeCode.{type_code};

    ghost Value = { TypeTree };

    ghost coded = { type_code };

    ghost use Rattle.kola_values.specs.Views.{type_tree};

    ghost view = { λ a. type_tree a.inner.value };

    ghost use Rattle.kola_values.specs.Models.Weights.{type_weight};

    ghost size = { type_weight };

    ghost use Rattle.kola_values.specs.Models.Falls.{type_deep_le};
    ghost use Rattle.std.proofs.Common.{arith};

    ghost size_decreases = { λ a h. omega (arith, type_deep_le a.inner.value) };
}

impl Model for Fields {
    ghost use Rattle.std.specs.Prelude.{List, ℕ};
    ghost use Rattle.std.specs.Coded.{coded_list, coded×, coded_ℕ};
    ghost use Rattle.kola_values.specs.Types.{TypeTree};
    ghost use Rattle.kola_values.specs.Models.TypeCode.{type_code};

    ghost Value = { List (List ℕ × TypeTree) };

    ghost coded = { coded_list (coded× (coded_list coded_ℕ) type_code) };

    ghost use Rattle.std.specs.Prelude.{map};
    ghost use Rattle.kola_values.specs.Views.{type_entry};

    ghost view = { λ a. map type_entry a.entries.items };

    ghost use Rattle.kola_values.specs.Models.Weights.{type_entries_weight};

    ghost size = { type_entries_weight };

    ghost use Rattle.kola_values.specs.Models.Falls.{type_entries_le};
    ghost use Rattle.std.proofs.Common.{arith};

    ghost size_decreases = { λ a h. omega (arith, type_entries_le a.entries.items) };
}

impl BoxedTy {
    /// A type in a box.
    pub fn new(alloc: Global, t: Ty) -> Result<BoxedTy, Memory>
        ensures { IfOk result (λ b. b ≡ type_tree t) }
    {
        let inner = Box::new(alloc, t)?;
        Ok(BoxedTy { inner })
    }

    /// The type in the box.
    pub fn get(&self) -> &Ty
        ensures { type_tree result.now ≡ self.now }
    {
        &self.inner
    }

    /// The type, out of its box.
    pub fn into_inner(self) -> Ty
        ensures { type_tree result ≡ self }
    {
        Box::into_inner(self.inner)
    }

    /// A copy of the type, in a box.
    #[cycle(copy)]
    pub fn copy(&self) -> Result<BoxedTy, Memory>
        ensures { IfOk result (λ b. b ≡ self.now) }
    {
        let alloc = *Box::allocator(&self.inner);
        let copied = self.get().copy()?;
        BoxedTy::new(alloc, copied)
    }
}

impl Fields {
    /// No fields.
    pub fn new(alloc: Global) -> Fields
        ensures { result ≡ [] }
    {
        Fields {
            entries: Vec::new(alloc),
        }
    }

    /// The number of fields.
    pub fn len(&self) -> usize
        ensures { result ≡ length self.now }
    {
        self.entries.len()
    }

    /// The field at place `n`, counted from 0; `None` past the end.
    pub fn get(&self, n: usize) -> Option<&(Name, Ty)>
        ensures { option_map type_entry_at result ≡ slice_get self.now n }
    {
        self.entries.get(n)
    }

    /// The fields in their order.
    pub fn as_slice(&self) -> &[(Name, Ty)]
        ensures { map type_entry result.now ≡ self.now }
    {
        self.entries.as_slice()
    }

    /// Adds a field at the end. Where memory is wanted, the list stays as it was and the field is dropped.
    pub fn push(&mut self, entry: (Name, Ty)) -> Result<(), Memory>
        ensures ok { OnOk result (self.new ≡ self.old ++ type_entry entry ∷ []) }
        ensures err { OnErr result (self.new ≡ self.old) }
    {
        self.entries.push(entry)?;
        Ok(())
    }

    /// A copy of the list.
    #[cycle(copy)]
    pub fn copy(&self) -> Result<Fields, Memory>
        ensures { IfOk result (λ f. f ≡ self.now) }
    {
        let mut entries = Vec::new(*self.entries.allocator());
        for (label, t) in &self.entries {
            entries.push((label.copy()?, t.copy()?))?;
        }
        Ok(Fields { entries })
    }

    #[cycle(is)]
    fn is(&self, other: &Fields) -> bool
        ensures { result ≡ same_types (of_type_fields self.now) (of_type_fields other.now) }
    {
        if self.entries.len() != other.entries.len() {
            return false;
        }
        for i in 0..self.entries.len() {
            let ((label, t), (other_label, u)) = (&self.entries[i], &other.entries[i]);
            if !label.is(other_label) || !t.is(u) {
                return false;
            }
        }
        true
    }

    #[cycle(nodes)]
    fn nodes(&self) -> u64
        ensures { result ≡ min (types_nodes (of_type_fields self.now)) (2 ^ 64 - 1) }
    {
        let mut all: u64 = 0;
        for (_, t) in &self.entries {
            all = all.saturating_add(t.nodes());
        }
        all
    }
}

impl Ty {
    /// The type of the sets of a type.
    pub fn set_of(alloc: Global, t: Ty) -> Result<Ty, Memory>
        ensures { IfOk result (λ r. type_tree r ≡ TSet (type_tree t)) }
    {
        let t = BoxedTy::new(alloc, t)?;
        Ok(Ty::Set(t))
    }

    /// The type of the pairs of two types.
    pub fn pair_of(alloc: Global, t: Ty, u: Ty) -> Result<Ty, Memory>
        ensures { IfOk result (λ r. type_tree r ≡ TPair (type_tree t) (type_tree u)) }
    {
        let t = BoxedTy::new(alloc, t)?;
        let u = BoxedTy::new(alloc, u)?;
        Ok(Ty::Pair(t, u))
    }

    /// A type equal to it.
    #[cycle(copy)]
    pub fn copy(&self) -> Result<Ty, Memory>
        ensures { IfOk result (λ t. type_tree t ≡ type_tree self.now) }
    {
        match self {
            Ty::Int => Ok(Ty::Int),
            Ty::Str => Ok(Ty::Str),
            Ty::Bool => Ok(Ty::Bool),
            Ty::Unit => Ok(Ty::Unit),
            Ty::Class(name) => Ok(Ty::Class(name.copy()?)),
            Ty::Var(name) => Ok(Ty::Var(name.copy()?)),
            Ty::Set(t) => Ok(Ty::Set(t.copy()?)),
            Ty::Pair(t, u) => Ok(Ty::Pair(t.copy()?, u.copy()?)),
            Ty::Struct(fields) => Ok(Ty::Struct(fields.copy()?)),
        }
    }

    /// Whether two types are the same.
    #[cycle(is)]
    pub fn is(&self, other: &Ty) -> bool
        ensures { result ≡ same_type (type_tree self.now) (type_tree other.now) }
    {
        match (self, other) {
            (Ty::Int, Ty::Int) => true,
            (Ty::Str, Ty::Str) => true,
            (Ty::Bool, Ty::Bool) => true,
            (Ty::Unit, Ty::Unit) => true,
            (Ty::Class(a), Ty::Class(b)) => a.is(b),
            (Ty::Var(a), Ty::Var(b)) => a.is(b),
            (Ty::Set(t), Ty::Set(u)) => t.get().is(u.get()),
            (Ty::Pair(t, u), Ty::Pair(x, y)) => t.get().is(x.get()) && u.get().is(y.get()),
            (Ty::Struct(fs), Ty::Struct(gs)) => fs.is(gs),
            _ => false,
        }
    }

    /// The constructors and names in it, labels aside; the greatest number of 64 bits stands for any greater one.
    #[cycle(nodes)]
    pub fn nodes(&self) -> u64
        ensures { result ≡ min (type_nodes (type_tree self.now)) (2 ^ 64 - 1) }
    {
        match self {
            Ty::Set(t) => t.get().nodes().saturating_add(1),
            Ty::Pair(t, u) => t
                .get()
                .nodes()
                .saturating_add(u.get().nodes())
                .saturating_add(1),
            Ty::Struct(fields) => fields.nodes().saturating_add(1),
            _ => 1,
        }
    }
}

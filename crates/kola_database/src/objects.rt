//! Whether a value is of a type, by a test that asks which objects there are.
ghost use Rattle.std.specs.Prelude.{◌≡◌, ◌↔◌, ℕ, List, Bool, true, map};
ghost use Rattle.std.specs.List.Sorted.{IsSortedBy};
ghost use Rattle.std.specs.Ordering.{is_lt};
ghost use Rattle.std.specs.List.{list_any, list_all};
ghost use Rattle.kola_values.specs.Values.{VObj, of_fields};
ghost use Rattle.kola_values.specs.Types.{of_type_fields};
ghost use Rattle.kola_values.specs.Order.{cmp, same};
ghost use Rattle.kola_values.specs.Shapes.{Shaped};
ghost use Rattle.kola_database.specs.MeetsTests.{typed_by, fields_typed_by, is_there, anything, no_two, same_object};
ghost use Rattle.kola_values.specs.Views.{type_tree, type_entry, value_tree, value_entry};
ghost use Rattle.kola_database.specs.ObjectViews.{object_tree};

use crate::ObjectDef;
use crate::db::{cmp_object, cmp_objects};
use kola_core::Name;
use kola_values::{Ty, Value};

// What tells whether there is an object.
pub(crate) trait Holds {
    ghost there: { Self → List ℕ → ℕ → Bool };

    fn holds(&self, class: &Name, id: u32) -> bool
        ensures { result ≡ there self.now class.now id };
}

// The objects of a list, which are looked for one by one.
#[derive(Drop)]
pub(crate) struct Listed<'a> {
    pub(crate) objects: &'a [ObjectDef],
}

impl Holds for Listed<'_> {
    ghost there = { λ l. is_there (map object_tree l.objects.now) };

    fn holds(&self, class: &Name, id: u32) -> bool {
        has_object(self.objects, class, id)
    }
}

// The objects of a list that is sorted by classes and ids, of which each is found by a binary search.
#[derive(Drop)]
pub(crate) struct Sorted<'a> {
    pub(crate) objects: &'a [ObjectDef],
    ghost sorted: { IsSortedBy (λ o p. is_lt (cmp (VObj o.class o.id) (VObj p.class p.id))) objects.now },
}

impl Holds for Sorted<'_> {
    ghost there = { λ s. is_there (map object_tree s.objects.now) };

    fn holds(&self, class: &Name, id: u32) -> bool {
        self.objects
            .binary_search_by(|object| cmp_object(object, class, id))
            .is_ok()
    }
}

// Whether no two objects of a sorted list are the same.
pub(crate) fn objects_rise(objects: &[ObjectDef]) -> bool
    requires { IsSortedBy (λ o p. is_lt (cmp (VObj o.class o.id) (VObj p.class p.id))) objects.now }
    ensures { result ≡ no_two same_object (map object_tree objects.now) }
{
    objects.is_sorted_by(|o, p| cmp_objects(o, p).is_lt())
}

// Any object.
#[derive(Drop)]
struct Anything;

impl Holds for Anything {
    ghost there = { λ _. anything };

    fn holds(&self, _class: &Name, _id: u32) -> bool {
        true
    }
}

fn is_object(object: &ObjectDef, class: &Name, id: u32) -> bool
    ensures { result ≡ same (VObj class.now id) (VObj object.now.class object.now.id) }
{
    class
        .cmp_bytes(&object.class)
        .then(id.cmp(&object.id))
        .is_eq()
}

pub(crate) fn has_object(objects: &[ObjectDef], class: &Name, id: u32) -> bool
    ensures { result ≡ list_any (λ o. same (VObj class.now id) (VObj o.class o.id)) objects.now }
{
    objects.iter().any(|object| is_object(object, class, id))
}

#[cycle(typed)]
pub(crate) fn is_of_type<H: Holds>(objects: &H, v: &Value, t: &Ty) -> bool
    ensures { result ≡ typed_by (H.there objects.now) (value_tree v.now) (type_tree t.now) }
{
    match (v, t) {
        (Value::Int(_), Ty::Int) => true,
        (Value::Str(_), Ty::Str) => true,
        (Value::Bool(_), Ty::Bool) => true,
        (Value::Unit, Ty::Unit) => true,
        (Value::Obj(class, id), Ty::Class(name)) => class.is(name) && objects.holds(class, *id),
        (Value::Set(set), Ty::Set(t)) => are_of_type(objects, set.as_slice(), t.get()),
        (Value::Pair(a, b), Ty::Pair(t, u)) => {
            is_of_type(objects, a.get(), t.get()) && is_of_type(objects, b.get(), u.get())
        }
        (Value::Struct(fields), Ty::Struct(types)) => {
            are_of_types(objects, fields.as_slice(), types.as_slice())
        }
        _ => false,
    }
}

#[cycle(typed)]
fn are_of_type<H: Holds>(objects: &H, members: &[Value], t: &Ty) -> bool
    ensures { result ≡ list_all (λ v. typed_by (H.there objects.now) (value_tree v) (type_tree t.now)) members.now }
{
    for member in members {
        if !is_of_type(objects, member, t) {
            return false;
        }
    }
    true
}

#[cycle(typed)]
fn are_of_types<H: Holds>(objects: &H, fields: &[(Name, Value)], types: &[(Name, Ty)]) -> bool
    ensures { result ≡ fields_typed_by (H.there objects.now) (of_fields (map value_entry fields.now))
        (of_type_fields (map type_entry types.now)) }
{
    if fields.len() != types.len() {
        return false;
    }
    for i in 0..fields.len() {
        let ((label, v), (other, t)) = (&fields[i], &types[i]);
        if !label.is(other) || !is_of_type(objects, v, t) {
            return false;
        }
    }
    true
}

/// Whether a value has the shape of a type: whether it is a value of the type in some database. It takes no memory.
pub fn shaped(v: &Value, t: &Ty) -> bool
    ensures { (result ≡ true) ↔ Shaped (value_tree v.now) (type_tree t.now) }
{
    v.well_formed();
    is_of_type(&Anything, v, t)
}

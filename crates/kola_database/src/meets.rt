//! Whether objects are a database of a schema.
ghost use Rattle.std.specs.Prelude.{◌≡◌, ◌↔◌, true, Some, map, IfOk, IfErr, OnOk, MatchOption, IsPermutation};
ghost use Rattle.std.specs.List.Sorted.{IsSortedBy};
ghost use Rattle.std.specs.Ordering.{is_lt};
ghost use Rattle.kola_values.specs.Values.{VObj};
ghost use Rattle.kola_values.specs.Order.{cmp};
ghost use Rattle.std.specs.List.{list_any, list_all};
ghost use Rattle.std.specs.Option.{option_map};
ghost use Rattle.std.specs.Str.{bytes_eq};
ghost use Rattle.kola_values.specs.Sets.{Each};
ghost use Rattle.kola_values.specs.Databases.{look_up};
ghost use Rattle.kola_schema.specs.Schemas.{class_named};
ghost use Rattle.kola_schema.specs.Meets.{Meets};
ghost use Rattle.kola_database.specs.MeetsTests.{IsHeld, no_two, same_object, is_value_of, fits_class, agree_at, clash, all_fit, keys_are_met, meets};
ghost use Rattle.kola_values.specs.Views.{type_entry, value_tree, value_at};
ghost use Rattle.kola_schema.specs.SchemaViews.{class_tree, type_at};
ghost use Rattle.kola_database.specs.ObjectViews.{object_tree};
ghost use Rattle.kola_database.specs.Stored.{IsUnder};
ghost use Rattle.kola_database.specs.declared.meets.ObjectsRefused.TheVariants as refused;

use crate::db::cmp_objects;
use crate::keyed::keys_are_apart;
use crate::objects::{Holds, Listed, Sorted, has_object, is_of_type, objects_rise};
use crate::{Db, ObjectDef};
use kola_core::{Memory, Name, Names};
use kola_schema::{ClassDef, Schema, entry_named, has_label, labels_are_distinct};
use kola_values::{Ty, Value};
use std::alloc::Global;

fn type_of<'a>(types: &'a [(Name, Ty)], a: &Name) -> Option<&'a Ty>
    ensures { option_map type_at result ≡ look_up a.now (map type_entry types.now) }
{
    let entry = entry_named(types, a)?;
    Some(&entry.1)
}

pub(crate) fn value_of<'a>(object: &'a ObjectDef, a: &Name) -> Option<&'a Value>
    ensures { option_map value_at result ≡ look_up a.now object.now.values }
{
    let entry = entry_named(object.values.as_slice(), a)?;
    Some(&entry.1)
}

// ---- an object and its class

fn is_value_of<H: Holds>(objects: &H, types: &[(Name, Ty)], entry: &(Name, Value)) -> bool
    ensures { result ≡ is_value_of (H.there objects.now) (look_up entry.now.0 (map type_entry types.now))
        (value_tree entry.now.1) }
{
    match type_of(types, &entry.0) {
        Some(t) => is_of_type(objects, &entry.1, t),
        None => false,
    }
}

fn are_typed<H: Holds>(objects: &H, types: &[(Name, Ty)], values: &[(Name, Value)]) -> bool
    ensures { result ≡ list_all
        (λ e. is_value_of (H.there objects.now) (look_up e.0 (map type_entry types.now)) (value_tree e.1)) values.now }
{
    values
        .iter()
        .all(|entry| is_value_of(objects, types, entry))
}

fn are_whole(types: &[(Name, Ty)], values: &[(Name, Value)]) -> bool
    ensures { result ≡ list_all (λ t. list_any (λ e. bytes_eq t.0 e.0) values.now) types.now }
{
    types.iter().all(|entry| has_label(values, &entry.0))
}

fn fits_class<H: Holds>(objects: &H, class: &ClassDef, object: &ObjectDef) -> bool
    ensures { result ≡ fits_class (H.there objects.now) (Some (class_tree class.now)) (object_tree object.now) }
{
    let types = class.attributes.as_slice();
    let values = object.values.as_slice();
    object.id > 0
        && labels_are_distinct(values)
        && are_typed(objects, types, values)
        && are_whole(types, values)
}

fn fits<H: Holds>(schema: &Schema, objects: &H, object: &ObjectDef) -> bool
    ensures { result ≡ fits_class (H.there objects.now) (class_named schema.now object.now.class)
        (object_tree object.now) }
{
    match schema.class_named(&object.class) {
        Some(class) => fits_class(objects, class, object),
        None => false,
    }
}

fn all_fit<H: Holds>(schema: &Schema, there: &H, objects: &[ObjectDef]) -> bool
    ensures { result ≡ list_all
        (λ o. fits_class (H.there there.now) (class_named schema.now o.class) (object_tree o)) objects.now }
{
    objects.iter().all(|object| fits(schema, there, object))
}

// ---- keys

fn agree_at(o: &ObjectDef, p: &ObjectDef, a: &Name) -> bool
    ensures { result ≡ agree_at (object_tree o.now) (object_tree p.now) a.now }
{
    let unit = Value::Unit;
    let v = value_of(o, a).unwrap_or(&unit);
    let w = value_of(p, a).unwrap_or(&unit);
    v.is(w)
}

fn agree_on(o: &ObjectDef, p: &ObjectDef, key: &Names) -> bool
    ensures { result ≡ list_all (λ a. agree_at (object_tree o.now) (object_tree p.now) a) key.now }
{
    key.as_slice().iter().all(|a| agree_at(o, p, a))
}

fn agree_on_some(o: &ObjectDef, p: &ObjectDef, keys: &[Names]) -> bool
    ensures { result ≡ list_any
        (λ key. list_all (λ a. agree_at (object_tree o.now) (object_tree p.now) a) key) keys.now }
{
    keys.iter().any(|key| agree_on(o, p, key))
}

fn clash(class: &ClassDef, o: &ObjectDef, p: &ObjectDef) -> bool
    ensures { result ≡ clash (Some (class_tree class.now)) (object_tree o.now) (object_tree p.now) }
{
    o.class.is(&p.class) && agree_on_some(o, p, class.keys.as_slice())
}

fn clashes(schema: &Schema, o: &ObjectDef, others: &[ObjectDef]) -> bool
    ensures { result ≡ list_any
        (λ p. clash (class_named schema.now o.now.class) (object_tree o.now) (object_tree p)) others.now }
{
    match schema.class_named(&o.class) {
        Some(class) => others.iter().any(|p| clash(class, o, p)),
        None => false,
    }
}

fn keys_are_met(schema: &Schema, objects: &[ObjectDef]) -> bool
    ensures { result ≡ keys_are_met schema.now (map object_tree objects.now) }
{
    for i in 0..objects.len() {
        if clashes(schema, &objects[i], &objects[i + 1..]) {
            return false;
        }
    }
    true
}

// ---- a database and its schema

fn objects_are_distinct(objects: &[ObjectDef]) -> bool
    ensures { result ≡ no_two same_object (map object_tree objects.now) }
{
    for i in 0..objects.len() {
        let object = &objects[i];
        if has_object(&objects[i + 1..], &object.class, object.id) {
            return false;
        }
    }
    true
}

fn meets(schema: &Schema, objects: &[ObjectDef]) -> bool
    ensures { result ≡ meets schema.now (map object_tree objects.now) }
{
    let there = Listed { objects };
    objects_are_distinct(objects)
        && all_fit(schema, &there, objects)
        && keys_are_met(schema, objects)
}

// The same of a list that is sorted by classes and ids, in time by the number of objects times its logarithm.
fn sorted_meet(alloc: Global, schema: &Schema, objects: &[ObjectDef]) -> Result<bool, Memory>
    requires { IsSortedBy (λ o p. is_lt (cmp (VObj o.class o.id) (VObj p.class p.id))) objects.now }
    ensures { IfOk result (λ b. b ≡ meets schema.now (map object_tree objects.now)) }
{
    if !objects_rise(objects) {
        return Ok(false);
    }
    let there = Sorted { objects };
    if !all_fit(schema, &there, objects) {
        return Ok(false);
    }
    keys_are_apart(alloc, schema, objects)
}

// What every object keeps.
fn held(object: &ObjectDef)
    ensures { IsHeld (object_tree object.now) }
{
    object.values.well_formed();
    let _id = object.id;
}

// What every object of a list keeps.
fn all_held(objects: &[ObjectDef])
    ensures { Each IsHeld (map object_tree objects.now) }
{
    for object in objects {
        held(object);
    }
}

/// Whether the objects are a database of the schema: no two objects of a class have one id, each object is of a class of the schema, has an
/// id from 1 and exactly the attributes of its class, each once and with a value of its type, in which each object that is named is one of
/// the list, and no two objects of a class agree on all attributes of one of its keys. It takes no memory: it compares each object with each
/// other, in time by the square of the number of objects. `Db::try_make` is the fast way.
pub fn objects_ok(schema: &Schema, objects: &[ObjectDef]) -> bool
    ensures { (result ≡ true) ↔ Meets schema.now (map object_tree objects.now) }
{
    all_held(objects);
    meets(schema, objects)
}

// The database of objects, or nothing where they do not meet the schema.
fn made(alloc: Global, schema: &Schema, objects: Vec<ObjectDef>) -> Result<Option<Db>, Memory>
    ensures { IfOk result (λ r. MatchOption r (Meets schema.now (map object_tree objects.items) → ⊥)
        (λ db. IsUnder schema.now db × IsPermutation (map object_tree objects.items) db.objects
        × Meets schema.now (map object_tree objects.items))) }
{
    let mut objects = objects;
    objects.sort_unstable_by(|o, p| cmp_objects(o, p));
    all_held(objects.as_slice());
    let met = sorted_meet(alloc, schema, objects.as_slice())?;
    if !met {
        return Ok(None);
    }
    let db = Db::make(alloc, schema, objects)?;
    Ok(Some(db))
}

/// Why there is no database of some objects.
#[derive(Drop)]
pub enum ObjectsRefused {
    /// They do not meet the schema.
    NotMet,
    /// Memory is wanted.
    Memory,
}

impl Db {
    /// The database of these objects, or `NotMet` exactly where they do not meet the schema, in the sense of `objects_ok`. Its time goes with
    /// the number of objects, and of classes, times the logarithm of the first: it sorts the objects where they stand, and what each key says of each.
    pub fn try_make(
        alloc: Global,
        schema: &Schema,
        objects: Vec<ObjectDef>,
    ) -> Result<Db, ObjectsRefused>
        ensures under { IfOk result (λ db. IsUnder schema.now db) }
        ensures objects { IfOk result (λ db. IsPermutation (map object_tree objects.items) db.objects) }
        ensures met { OnOk result (Meets schema.now (map object_tree objects.items)) }
        ensures not_met { IfErr result
            (λ e. e ≡ refused.NotMet → Meets schema.now (map object_tree objects.items) → ⊥) }
    {
        let Ok(made) = made(alloc, schema, objects) else {
            return Err(ObjectsRefused::Memory);
        };
        match made {
            Some(db) => Ok(db),
            None => Err(ObjectsRefused::NotMet),
        }
    }
}

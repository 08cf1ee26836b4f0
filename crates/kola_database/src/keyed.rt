//! Whether two objects agree on a key of their class, by sorting what each key says of each object.
ghost use Rattle.std.specs.Prelude.{◌≡◌, ◌++◌, map, IfOk, OnOk};
ghost use Rattle.std.specs.Cmp.Lexicographic.{slice_cmp};
ghost use Rattle.kola_values.specs.Values.{VObj};
ghost use Rattle.kola_values.specs.Order.{cmp};
ghost use Rattle.kola_database.specs.MeetsTests.{keys_are_met};
ghost use Rattle.kola_schema.specs.Schemas.{class_named};
ghost use Rattle.kola_database.specs.KeyedObjects.{value_at_name, keyed_from, all_keyed, keyed_objects, cmp_keyed};
ghost use Rattle.kola_database.specs.ObjectViews.{object_tree};
ghost use Rattle.kola_database.specs.KeyedViews.{keyed_tree};

use crate::ObjectDef;
use crate::meets::value_of;
use kola_core::{Memory, Name, Names};
use kola_schema::Schema;
use kola_values::{Value, cmp_values};
use std::alloc::Global;
use std::cmp::Ordering;

// An object and a key of its class, with the key's place among the class's keys.
#[derive(Drop)]
struct Keyed<'a> {
    object: &'a ObjectDef,
    place: usize,
    key: &'a Names,
}

fn cmp_at(o: &ObjectDef, a: &Name, p: &ObjectDef, b: &Name) -> Ordering
    ensures { result ≡ cmp (value_at_name (object_tree o.now) a.now) (value_at_name (object_tree p.now) b.now) }
{
    let unit = Value::Unit;
    let v = value_of(o, a).unwrap_or(&unit);
    let w = value_of(p, b).unwrap_or(&unit);
    cmp_values(v, w)
}

fn cmp_at_keys(o: &ObjectDef, key: &[Name], p: &ObjectDef, other: &[Name]) -> Ordering
    ensures { result ≡ slice_cmp cmp (map (λ a. value_at_name (object_tree o.now) a) key.now)
        (map (λ a. value_at_name (object_tree p.now) a) other.now) }
{
    for i in 0..key.len().min(other.len()) {
        match cmp_at(o, &key[i], p, &other[i]) {
            Ordering::Equal => {}
            unequal => return unequal,
        }
    }
    key.len().cmp(&other.len())
}

fn cmp_place(x: &Keyed<'_>, y: &Keyed<'_>) -> Ordering
    ensures { result ≡ cmp (VObj x.now.object.now.class x.now.place) (VObj y.now.object.now.class y.now.place) }
{
    x.object
        .class
        .cmp_bytes(&y.object.class)
        .then(x.place.cmp(&y.place))
}

fn cmp_keyed(x: &Keyed<'_>, y: &Keyed<'_>) -> Ordering
    ensures { result ≡ cmp_keyed (keyed_tree x.now) (keyed_tree y.now) }
{
    match cmp_place(x, y) {
        Ordering::Equal => cmp_at_keys(x.object, x.key.as_slice(), y.object, y.key.as_slice()),
        unequal => unequal,
    }
}

fn push_keys<'a>(
    list: &mut Vec<Keyed<'a>>,
    object: &'a ObjectDef,
    keys: &'a [Names],
) -> Result<(), Memory>
    ensures { OnOk result (map keyed_tree list.new.items ≡ map keyed_tree list.old.items
        ++ keyed_from (object_tree object.now) 0 keys.now) }
{
    for place in 0..keys.len() {
        let key = &keys[place];
        list.push(Keyed { object, place, key })?;
    }
    Ok(())
}

fn push_object<'a>(
    list: &mut Vec<Keyed<'a>>,
    schema: &'a Schema,
    object: &'a ObjectDef,
) -> Result<(), Memory>
    ensures { OnOk result (map keyed_tree list.new.items ≡ map keyed_tree list.old.items
        ++ all_keyed (class_named schema.now object.now.class) (object_tree object.now)) }
{
    match schema.class_named(&object.class) {
        Some(class) => push_keys(list, object, class.keys.as_slice()),
        None => Ok(()),
    }
}

fn keyed_objects<'a>(
    alloc: Global,
    schema: &'a Schema,
    objects: &'a [ObjectDef],
) -> Result<Vec<Keyed<'a>>, Memory>
    ensures { IfOk result (λ r. map keyed_tree r.items ≡ keyed_objects schema.now (map object_tree objects.now)) }
{
    let mut list = Vec::new(alloc);
    for object in objects {
        push_object(&mut list, schema, object)?;
    }
    Ok(list)
}

/// Whether no two objects of a class agree on all attributes of one of its keys, in time by the number of objects times its logarithm.
pub(crate) fn keys_are_apart(
    alloc: Global,
    schema: &Schema,
    objects: &[ObjectDef],
) -> Result<bool, Memory>
    ensures { IfOk result (λ b. b ≡ keys_are_met schema.now (map object_tree objects.now)) }
{
    let mut list = keyed_objects(alloc, schema, objects)?;
    list.sort_unstable_by(|x, y| cmp_keyed(x, y));
    let apart = list.as_slice().is_sorted_by(|x, y| cmp_keyed(x, y).is_lt());
    Ok(apart)
}

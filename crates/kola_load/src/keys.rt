//! The keys of a database: no object agrees with an earlier one of its class on all attributes of a key.
ghost use Rattle.std.specs.Prelude.{◌≡◌, ◌+◌, [], Some, None, map, position, IfOk};
ghost use Rattle.std.specs.BTreeMap.{get, Updates};
ghost use Rattle.std.specs.Str.{bytes_eq};
ghost use Rattle.std.specs.Cmp.Lexicographic.{slice_cmp};
ghost use Rattle.kola_values.specs.Values.{VUnit};
ghost use Rattle.kola_values.specs.Order.{cmp};
ghost use Rattle.kola_schema.specs.Schemas.{names_of};
ghost use Rattle.kola_database.specs.ObjectViews.{object_tree};
ghost use Rattle.kola_values.specs.Views.{value_tree, value_at};
ghost use Rattle.kola_load.specs.Calls.{Finds, Nothing};
ghost use Rattle.kola_load.specs.KeyViews.{key_tree, key_cmp, value_at_place, AreOfClass, AreOfClasses, lists_fault};
ghost use Rattle.kola_load.specs.Loading.{first_among, repeat_fault, keys_fault};
ghost use Rattle.kola_load.specs.declared.fault.DbFault.TheVariants as faults;

use crate::DbFault;
use kola_core::{Memory, Name, Names};
use kola_database::ObjectDef;
use kola_schema::{IndexedClass, Schema};
use kola_values::{Value, cmp_values};
use std::alloc::Global;
use std::cmp::Ordering;
use std::collections::BTreeMap;

// The values of an object at a key.
#[derive(Drop)]
struct KeyOf<'a> {
    values: Vec<&'a Value>,
}

// The order of two lists of values.
fn cmp_all(vs: &[&Value], ws: &[&Value]) -> Ordering
    ensures { result ≡ slice_cmp cmp (map value_at vs.now) (map value_at ws.now) }
{
    for i in 0..vs.len().min(ws.len()) {
        match cmp_values(vs[i], ws[i]) {
            Ordering::Equal => {}
            unequal => return unequal,
        }
    }
    vs.len().cmp(&ws.len())
}

impl PartialEq for KeyOf<'_> {
    ghost use Rattle.std.specs.Ordering.{eq_by_cmp};
    ghost use Rattle.kola_load.specs.KeyViews.{key_cmp, key_equiv};
    ghost use Rattle.std.specs.Cmp.{partial_equiv_from_equiv};

    ghost eq = { eq_by_cmp key_cmp };

    ghost laws = { partial_equiv_from_equiv key_equiv };

    fn eq(&self, other: &Self) -> bool {
        self.cmp(other).is_eq()
    }
}

impl Eq for KeyOf<'_> {
    ghost use Rattle.kola_load.specs.KeyViews.{key_equiv};

    ghost laws = { key_equiv };
}

impl PartialOrd for KeyOf<'_> {
    ghost use Rattle.std.specs.Ordering.{as_partial_cmp};
    ghost use Rattle.std.specs.Cmp.{partial_order_from_total};
    ghost use Rattle.kola_load.specs.KeyViews.{key_cmp, key_total};

    ghost partial_cmp = { as_partial_cmp key_cmp };

    ghost laws = { partial_order_from_total key_total };

    fn partial_cmp(&self, other: &Self) -> Option<Ordering> {
        Some(self.cmp(other))
    }
}

impl Ord for KeyOf<'_> {
    ghost use Rattle.std.specs.Prelude.{refl};
    ghost use Rattle.kola_load.specs.KeyViews.{key_cmp, key_total};

    ghost cmp = { key_cmp };

    ghost total = { key_total };

    ghost matches_partial_cmp = { λ x y. refl };

    ghost matches_eq = { λ x y. refl };

    fn cmp(&self, other: &Self) -> Ordering {
        cmp_all(&self.values, &other.values)
    }
}

// The places of the names of a key among the attributes of a class.
fn places_of(
    alloc: Global,
    class: &IndexedClass,
    key: &[Name],
) -> Result<Vec<Option<usize>>, Memory>
    ensures { IfOk result (λ v. v.items ≡ map (λ a. position (bytes_eq a) (names_of class.now.attributes)) key.now) }
{
    let mut places = Vec::new(alloc);
    for a in key {
        let place = class.attribute_place(a.as_text());
        places.push(place)?;
    }
    Ok(places)
}

// The value of an object at a place; the unit where there is none.
fn value_at<'a>(unit: &'a Value, object: &'a ObjectDef, place: Option<usize>) -> &'a Value
    requires { value_tree unit.now ≡ VUnit }
    ensures { value_tree result.now ≡ value_at_place object.now.values place }
{
    let Some(place) = place else {
        return unit;
    };
    match object.values.get(place) {
        Some(entry) => &entry.1,
        None => unit,
    }
}

// The values of an object at the places of a key.
fn key_of<'a>(
    alloc: Global,
    unit: &'a Value,
    object: &'a ObjectDef,
    places: &[Option<usize>],
) -> Result<KeyOf<'a>, Memory>
    requires { value_tree unit.now ≡ VUnit }
    ensures { IfOk result (λ k. key_tree k ≡ map (value_at_place object.now.values) places.now) }
{
    let mut values = Vec::new(alloc);
    for place in places {
        values.push(value_at(unit, object, *place))?;
    }
    Ok(KeyOf { values })
}

// Takes what an object says at a key into a table; the id that the table had there, where an earlier object says the same.
fn earlier<'a>(
    seen: &mut BTreeMap<KeyOf<'a>, u32>,
    said: KeyOf<'a>,
    id: u32,
) -> Result<Option<u32>, Memory>
    ensures found { IfOk result (λ r. r ≡ get key_cmp seen.old said.entry) }
    ensures taken { IfOk result (λ r. r ≡ None → Updates key_cmp seen.old seen.new said.entry (Some id)) }
{
    if let Some(first) = seen.get(&said) {
        return Ok(Some(*first));
    }
    seen.insert(said, id)?;
    Ok(None)
}

// The fault that two objects of a class agree on a key of a place.
fn key_repeats(class: &Name, key: usize, first: u32, second: u32) -> DbFault
    ensures { (result ≡ faults.Memory → ⊥) → result ≡ faults.KeyRepeats class.now key first second }
{
    match class.copy() {
        Ok(class) => DbFault::KeyRepeats {
            class,
            key,
            first,
            second,
        },
        Err(wanting) => DbFault::from(wanting),
    }
}

// Whether no object agrees with an earlier one on a key, which stands at a place counted from 1.
fn check_key(
    alloc: Global,
    unit: &Value,
    class: &IndexedClass,
    place: usize,
    key: &Names,
    objects: &[ObjectDef],
) -> Result<(), DbFault>
    requires unit { value_tree unit.now ≡ VUnit }
    requires objects { AreOfClass class.now (map object_tree objects.now) }
    ensures { Finds (first_among (repeat_fault class.now place key.now) []
        (map object_tree objects.now)) Nothing result }
{
    let places = places_of(alloc, class, key.as_slice())?;
    let mut seen: BTreeMap<KeyOf<'_>, u32> = BTreeMap::new(alloc);
    for object in objects {
        let said = key_of(alloc, unit, object, places.as_slice())?;
        let before = earlier(&mut seen, said, object.id)?;
        match before {
            Some(first) => return Err(key_repeats(&class.get().name, place, first, object.id)),
            None => {}
        }
    }
    Ok(())
}

// Whether no object of a class agrees with an earlier one on a key of the class.
fn check_class(
    alloc: Global,
    unit: &Value,
    class: &IndexedClass,
    objects: &[ObjectDef],
) -> Result<(), DbFault>
    requires unit { value_tree unit.now ≡ VUnit }
    requires objects { AreOfClass class.now (map object_tree objects.now) }
    ensures { Finds (keys_fault class.now (map object_tree objects.now)) Nothing result }
{
    let keys = class.get().keys.as_slice();
    for i in 0..keys.len() {
        check_key(alloc, unit, class, i + 1, &keys[i], objects)?;
    }
    Ok(())
}

// The same of the objects of each class, which the lists have in the order of the schema.
fn check_classes(
    alloc: Global,
    unit: &Value,
    schema: &Schema,
    lists: &[Vec<ObjectDef>],
) -> Result<(), DbFault>
    requires unit { value_tree unit.now ≡ VUnit }
    requires objects { AreOfClasses schema.now (map (λ os. map object_tree os.items) lists.now) }
    ensures { Finds (lists_fault schema.now (map (λ os. map object_tree os.items) lists.now)) Nothing result }
{
    let classes = schema.classes();
    for i in 0..classes.len() {
        check_class(alloc, unit, &classes[i], &lists[i])?;
    }
    Ok(())
}

// The same.
pub(crate) fn check_keys(
    alloc: Global,
    schema: &Schema,
    lists: &[Vec<ObjectDef>],
) -> Result<(), DbFault>
    requires { AreOfClasses schema.now (map (λ os. map object_tree os.items) lists.now) }
    ensures { Finds (lists_fault schema.now (map (λ os. map object_tree os.items) lists.now)) Nothing result }
{
    check_classes(alloc, &Value::Unit, schema, lists)
}

//! Databases: objects that meet a schema, with each extent as a set.
ghost use Rattle.std.specs.Prelude.{◌≡◌, true, map, take, drop, slice_get, IfOk, OnSome, IsPermutation};
ghost use Rattle.std.specs.Option.{option_map, option_copied};
ghost use Rattle.kola_values.specs.Values.{VObj};
ghost use Rattle.kola_values.specs.Order.{cmp};
ghost use Rattle.kola_values.specs.Sets.{Rising, has};
ghost use Rattle.kola_values.specs.Databases.{objects_of, look_up};
ghost use Rattle.kola_schema.specs.Meets.{Meets, object_values};
ghost use Rattle.kola_schema.specs.Schemas.{are_distinct, names_of, class_names};
ghost use Rattle.kola_database.specs.Stored.{IsUnder, extent_in, extent_at, object_named, attribute_in, attribute_at};
ghost use Rattle.kola_values.specs.Views.{value_at};
ghost use Rattle.kola_database.specs.ObjectViews.{object_tree, object_at};
ghost use Rattle.kola_database.specs.ExtentViews.{filled, IsRange, AreRanges};

use crate::ObjectDef;
use kola_core::{Items, Memory, Name, NameTable, Names};
use kola_schema::{Schema, entry_named};
use kola_values::{Set, Ty, Value};
use std::alloc::Global;
use std::cmp::Ordering;
use std::marker::Model;

// The order of an object and the object of a class and an id.
pub(crate) fn cmp_object(object: &ObjectDef, class: &Name, id: u32) -> Ordering
    ensures { result ≡ cmp (VObj object.now.class object.now.id) (VObj class.now id) }
{
    object.class.cmp_bytes(class).then(object.id.cmp(&id))
}

pub(crate) fn cmp_objects(a: &ObjectDef, b: &ObjectDef) -> Ordering
    ensures { result ≡ cmp (VObj a.now.class a.now.id) (VObj b.now.class b.now.id) }
{
    cmp_object(a, &b.class, b.id)
}

/// The extent of a class: its name, the class with its attributes in their order, and the objects of the class as a set.
#[derive(Drop)]
pub struct Extent {
    name: Name,
    class: Name,
    attributes: Names,
    members: Set,
}

// Where the objects of a class stand, side by side in the order of values: the place of the first, and how many they are.
fn range_of(objects: &[ObjectDef], class: &Name) -> (usize, usize)
    requires { Rising (object_values (map object_tree objects.now)) }
    ensures { IsRange objects.now class.now result }
{
    let start = objects.partition_point(|object| object.class.cmp_bytes(class).is_lt());
    let from = &objects[start..];
    let count = from.partition_point(|object| class.is(&object.class));
    (start, count)
}

// The objects that stand in a range.
fn objects_at(objects: &[ObjectDef], start: usize, count: usize) -> &[ObjectDef]
    ensures { result.now ≡ take count (drop start objects.now) }
{
    let from = &objects[start.min(objects.len())..];
    &from[..count.min(from.len())]
}

// The objects of a class.
fn run_of<'a>(objects: &'a [ObjectDef], class: &Name) -> &'a [ObjectDef]
    requires { Rising (object_values (map object_tree objects.now)) }
    ensures { object_values (map object_tree result.now) ≡ objects_of class.now (map object_tree objects.now) }
{
    let (start, count) = range_of(objects, class);
    objects_at(objects, start, count)
}

// The objects of a class as a set.
fn members_of(alloc: Global, class: &Name, objects: &[ObjectDef]) -> Result<Set, Memory>
    requires { Rising (object_values (map object_tree objects.now)) }
    ensures { IfOk result (λ s. s ≡ objects_of class.now (map object_tree objects.now)) }
{
    let run = run_of(objects, class);
    let mut members = Vec::new(alloc);
    for object in run {
        members.push(Value::Obj(object.class.copy()?, object.id))?;
    }
    Set::from_rising(members)
}

// Where the objects of each class stand, in the order of the schema.
fn ranges_of(
    alloc: Global,
    schema: &Schema,
    objects: &[ObjectDef],
) -> Result<Vec<(usize, usize)>, Memory>
    requires { Rising (object_values (map object_tree objects.now)) }
    ensures { IfOk result (λ v. AreRanges objects.now (class_names schema.now) v.items) }
{
    let mut ranges = Vec::new(alloc);
    for class in schema.classes() {
        ranges.push(range_of(objects, &class.get().name))?;
    }
    Ok(ranges)
}

// The names of attributes, in their order.
fn labels_of(alloc: Global, entries: &[(Name, Ty)]) -> Result<Names, Memory>
    ensures { IfOk result (λ ns. ns ≡ names_of entries.now) }
{
    let mut names = Items::new(alloc);
    for entry in entries {
        names.push(entry.0.copy()?)?;
    }
    Ok(names)
}

// The extents of the classes of a schema, in their order.
fn extents_of(alloc: Global, schema: &Schema, objects: &[ObjectDef]) -> Result<Vec<Extent>, Memory>
    requires { Rising (object_values (map object_tree objects.now)) }
    ensures { IfOk result (λ v. v.items ≡ filled schema.now (map object_tree objects.now)) }
{
    let mut extents = Vec::new(alloc);
    for class in schema.classes() {
        let class = class.get();
        let members = members_of(alloc, &class.name, objects)?;
        extents.push(Extent {
            name: class.extent.copy()?,
            class: class.name.copy()?,
            attributes: labels_of(alloc, class.attributes.as_slice())?,
            members,
        })?;
    }
    Ok(extents)
}

// The names of extents, in their order.
fn table_of(alloc: Global, extents: &[Extent]) -> Result<NameTable, Memory>
    requires { are_distinct (map (λ x. x.name) extents.now) ≡ true }
    ensures { IfOk result (λ t. t ≡ map (λ x. x.name) extents.now) }
{
    let mut names = NameTable::new(alloc);
    for extent in extents {
        names.add(extent.name.as_text())?;
    }
    Ok(names)
}

fn extent_numbered(extents: &[Extent], n: usize) -> Option<&Extent>
    ensures { option_copied result ≡ slice_get extents.now n }
{
    extents.get(n)
}

fn range_numbered(ranges: &[(usize, usize)], n: usize) -> Option<(usize, usize)>
    ensures { result ≡ slice_get ranges.now n }
{
    ranges.get(n).copied()
}

fn members_at(extents: &[Extent], n: usize) -> Option<&Set>
    ensures { option_copied result ≡ option_map (λ x. x.members) (slice_get extents.now n) }
{
    let extent = extents.get(n)?;
    Some(&extent.members)
}

fn object_in<'a>(objects: &'a [ObjectDef], class: &Name, id: u32) -> Option<&'a ObjectDef>
    requires { Rising (object_values (map object_tree objects.now)) }
    ensures { option_map object_at result ≡ object_named class.now id (map object_tree objects.now) }
{
    match objects.binary_search_by(|object| cmp_object(object, class, id)) {
        Ok(place) => Some(&objects[place]),
        Err(_) => None,
    }
}

// The object that stands at a place, if it is the one of the class and the id.
fn object_there<'a>(
    objects: &'a [ObjectDef],
    place: usize,
    class: &Name,
    id: u32,
) -> Option<&'a ObjectDef>
    requires { Rising (object_values (map object_tree objects.now)) }
    ensures { OnSome result (option_map object_at result ≡ object_named class.now id (map object_tree objects.now)) }
{
    if place >= objects.len() {
        return None;
    }
    let object = &objects[place];
    if cmp_object(object, class, id).is_eq() {
        Some(object)
    } else {
        None
    }
}

// The object of an id among the objects of a class. Where ids are dense it stands as far behind the first as its id is above 1, and is
// looked for by halves where it does not.
fn object_from<'a>(objects: &'a [ObjectDef], class: &Name, id: u32) -> Option<&'a ObjectDef>
    requires { Rising (object_values (map object_tree objects.now)) }
    ensures { option_map object_at result ≡ object_named class.now id (map object_tree objects.now) }
{
    let place = (id as usize).saturating_sub(1);
    match object_there(objects, place, class, id) {
        Some(object) => Some(object),
        None => object_in(objects, class, id),
    }
}

// The value of an attribute of an object. It stands at the attribute's number where the object lists its values in the class's order, and
// is looked for by its name where the object does not.
fn value_from<'a>(object: &'a ObjectDef, place: usize, a: &Name) -> Option<&'a Value>
    requires { are_distinct (names_of object.now.values) ≡ true }
    ensures { option_map value_at result ≡ look_up a.now object.now.values }
{
    if let Some(entry) = object.values.get(place) {
        if a.is(&entry.0) {
            return Some(&entry.1);
        }
    }
    let entry = entry_named(object.values.as_slice(), a)?;
    Some(&entry.1)
}

/// A database: objects that meet a schema. Contracts see it as its objects, the names of its extents with their classes, and the names of
/// the attributes of each class. It keeps its objects in the order of their values, so that those of a class stand together by rising ids,
/// and each extent as a set.
#[derive(Drop)]
pub struct Db {
    objects: Vec<ObjectDef>,
    extents: Vec<Extent>,
    ranges: Vec<(usize, usize)>,
    names: NameTable,
}

impl Model for Db {
    ghost use Rattle.std.specs.Coded.{codes};
    ghost use Rattle.kola_database.specs.Stored.{Database};
    ghost use Rattle.kola_values.specs.Models.Total.{value_code};

    ghost Value = { Database };

    ghost coded = { Prim.hlevel (codes, value_code) };

    ghost use Rattle.std.specs.Prelude.{map};
    ghost use Rattle.kola_database.specs.ObjectViews.{object_tree};
    ghost use Rattle.kola_database.specs.ExtentViews.{extent_entry, extent_labels, IsStored};

    ghost view = { λ a. record {
      objects = map object_tree a.objects.items;
      extents = map extent_entry a.extents.items;
      attributes = map extent_labels a.extents.items;
    } };

    ghost invariant = { λ a. IsStored a.objects.items a.extents.items a.ranges.items a.names };
}

impl Db {
    /// The database of these objects, which must meet the schema. It sorts them where they stand. The objects of a class then stand side by
    /// side: it finds them by halves, and makes the set of the extent by one walk over them alone. Its time goes with the number of objects
    /// times its logarithm, and the number of classes times that logarithm.
    pub fn make(alloc: Global, schema: &Schema, objects: Vec<ObjectDef>) -> Result<Db, Memory>
        requires { Meets schema.now (map object_tree objects.items) }
        ensures under { IfOk result (λ db. IsUnder schema.now db) }
        ensures objects { IfOk result (λ db. IsPermutation (map object_tree objects.items) db.objects) }
    {
        schema.well_formed();
        let mut objects = objects;
        objects.sort_unstable_by(|a, b| cmp_objects(a, b));
        let extents = extents_of(alloc, schema, objects.as_slice())?;
        let ranges = ranges_of(alloc, schema, objects.as_slice())?;
        let names = table_of(alloc, extents.as_slice())?;
        Ok(Db {
            objects,
            extents,
            ranges,
            names,
        })
    }

    /// The extent of the class of a number, as the set of its objects; `None` exactly where the number is past the last class. It is lent,
    /// in constant time.
    pub fn extent_at(&self, class: usize) -> Option<&Set>
        ensures { option_copied result ≡ extent_at self.now class }
    {
        members_at(&self.extents, class)
    }

    /// The value of the attribute of a number of the object with the id of the class of a number: the same as `attribute` finds by their
    /// names. It takes constant time where the ids of the class are dense, 1, 2 and so on, and the object lists its values in the class's
    /// order; else it searches the objects of the class by halves, or walks the attributes of one.
    pub fn attribute_at(&self, class: usize, id: u32, a: usize) -> Option<&Value>
        ensures { option_map value_at result ≡ attribute_at self.now class id a }
    {
        let extent = extent_numbered(&self.extents, class)?;
        let name = extent.attributes.get(a)?;
        let range = range_numbered(&self.ranges, class)?;
        let run = objects_at(&self.objects, range.0, range.1);
        let object = object_from(run, &extent.class, id)?;
        value_from(object, a, name)
    }

    /// The extent of the name, as the set of the objects of its class; `None` exactly where the database has no such extent. It takes
    /// constant expected time.
    pub fn extent(&self, name: &Name) -> Option<&Set>
        ensures { option_copied result ≡ extent_in self.now name.now }
    {
        let place = self.names.place(name.as_text())?;
        members_at(&self.extents, place)
    }

    /// The value of an attribute of the object of the class and the id; `None` exactly where there is no such object or the object has no
    /// such attribute. It searches the objects by halves, and then walks the attributes of one.
    pub fn attribute(&self, class: &Name, id: u32, a: &Name) -> Option<&Value>
        ensures { option_map value_at result ≡ attribute_in self.now.objects class.now id a.now }
    {
        let object = object_in(&self.objects, class, id)?;
        let entry = entry_named(object.values.as_slice(), a)?;
        Some(&entry.1)
    }

    /// Whether there is an object of the class and the id. It searches the objects by halves.
    pub fn has_object(&self, class: &Name, id: u32) -> bool
        ensures { result ≡ has (VObj class.now id) (objects_of class.now self.now.objects) }
    {
        object_in(&self.objects, class, id).is_some()
    }
}

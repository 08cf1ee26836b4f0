//! The objects of a database: each has exactly the attributes of its class, each of its type, and its references name objects.
ghost use Rattle.std.specs.Prelude.{◌≡◌, codes, ◌∷◌, map, IfOk};
ghost use Rattle.kola_load.specs.JsonViews.{view, table_view};
ghost use Rattle.kola_schema.specs.Schemas.{names_of};
ghost use Rattle.kola_schema.specs.SchemaViews.{class_tree};
ghost use Rattle.kola_database.specs.ObjectViews.{object_tree};
ghost use Rattle.kola_values.specs.Views.{type_entry, value_entry};
ghost use Rattle.kola_load.specs.Calls.{Finds};
ghost use Rattle.kola_load.specs.Ids.{there};
ghost use Rattle.kola_load.specs.Members.{elements_at, AreLeft};
ghost use Rattle.kola_load.specs.Json.{least, names_beside};
ghost use Rattle.kola_load.specs.Loading.{first_of, attribute_fault, object_fault, objects_fault};
ghost use Rattle.kola_load.specs.declared.fault.DbFault.TheVariants as faults;
ghost use Rattle.kola_load.specs.Written.{id_in, attribute_in, object_in, objects_in};

use crate::DbFault;
use crate::ids::Ids;
use crate::members::{Members, id_among, member_of, members_of};
use crate::names::{Knows, least_unknown};
use crate::parts::elements_in;
use crate::values::{missing, value_of};
use json::Value as Json;
use kola_core::{Memory, Name, Text};
use kola_database::ObjectDef;
use kola_schema::{ClassDef, IndexedClass, Schema};
use kola_values::{Ty, Value, ValueFields};
use std::alloc::Global;

// The names of the members of an object of a class: `#` and the attributes.
#[derive(Drop)]
struct Labels<'a> {
    class: &'a IndexedClass,
}

impl Knows for Labels<'_> {
    ghost use Rattle.kola_load.specs.Labels.{labels};

    ghost names = { λ l. labels l.class.now };

    fn knows(&self, name: &str) -> bool {
        name == "#" || self.class.has_attribute(name)
    }
}

// The least name of a member of an object that is neither `#` nor an attribute.
fn unknown_label(
    alloc: Global,
    class: &IndexedClass,
    object: &Members<'_>,
) -> Result<Option<Text>, Memory>
    ensures { IfOk result
        (λ o. o ≡ least (names_beside (codes "#" ∷ names_of class.now.attributes) (table_view object.now))) }
{
    let labels = Labels { class };
    least_unknown(alloc, &labels, object)
}

// The fault that an attribute has no member.
fn missing_attribute(class: &Name, id: u32, name: &Name) -> Result<DbFault, Memory>
    ensures { IfOk result (λ f. f ≡ faults.MissingAttribute class.now id name.now) }
{
    Ok(DbFault::MissingAttribute {
        class: class.copy()?,
        id,
        name: name.copy()?,
    })
}

// The fault that the member of an attribute is not of its type.
fn wrong_type(class: &Name, id: u32, name: &Name) -> Result<DbFault, Memory>
    ensures { IfOk result (λ f. f ≡ faults.WrongType class.now id name.now) }
{
    Ok(DbFault::WrongType {
        class: class.copy()?,
        id,
        name: name.copy()?,
    })
}

// The fault that a reference names no object of its class.
fn no_such_object(class: &Name, id: u32, name: &Name, target: u32) -> Result<DbFault, Memory>
    ensures { IfOk result (λ f. f ≡ faults.NoSuchObject class.now id name.now target) }
{
    Ok(DbFault::NoSuchObject {
        class: class.copy()?,
        id,
        name: name.copy()?,
        target,
    })
}

// An attribute with its value in an object.
fn read_attribute(
    alloc: Global,
    ids: &Ids,
    class: &ClassDef,
    id: u32,
    object: &Members<'_>,
    attribute: &(Name, Ty),
) -> Result<(Name, Value), DbFault>
    requires { id ≡ id_in (table_view object.now) }
    ensures { Finds (attribute_fault (there ids.now) (class_tree class.now) (table_view object.now)
        (type_entry attribute.now))
        (λ e. value_entry e ≡ attribute_in (table_view object.now) (type_entry attribute.now)) result }
{
    let (name, t) = attribute;
    let Some(member) = member_of(object, name.as_text()) else {
        return Err(missing_attribute(&class.name, id, name)?);
    };
    let Some(value) = value_of(alloc, t, member)? else {
        return Err(wrong_type(&class.name, id, name)?);
    };
    if let Some(target) = missing(ids, t, member) {
        return Err(no_such_object(&class.name, id, name, target)?);
    }
    Ok((name.copy()?, value))
}

// The attributes of a class with their values in an object.
fn read_attributes(
    alloc: Global,
    ids: &Ids,
    class: &ClassDef,
    id: u32,
    object: &Members<'_>,
) -> Result<ValueFields, DbFault>
    requires { id ≡ id_in (table_view object.now) }
    ensures { Finds (first_of (attribute_fault (there ids.now) (class_tree class.now) (table_view object.now))
        class.now.attributes) (λ vs. vs ≡ map (attribute_in (table_view object.now)) class.now.attributes) result }
{
    let mut values = ValueFields::new(alloc);
    for attribute in class.attributes.as_slice() {
        let entry = read_attribute(alloc, ids, class, id, object, attribute)?;
        values.push(entry)?;
    }
    Ok(values)
}

// The object of an id that an element writes, of which each member is known.
fn read_known(
    alloc: Global,
    ids: &Ids,
    class: &ClassDef,
    id: u32,
    object: &Members<'_>,
) -> Result<ObjectDef, DbFault>
    requires { id ≡ id_in (table_view object.now) }
    ensures { Finds (first_of (attribute_fault (there ids.now) (class_tree class.now) (table_view object.now))
        class.now.attributes) (λ o. object_tree o ≡ object_in (class_tree class.now) (table_view object.now)) result }
{
    let values = read_attributes(alloc, ids, class, id, object)?;
    Ok(ObjectDef {
        class: class.name.copy()?,
        id,
        values,
    })
}

// The fault that a member of an object is no attribute.
fn unknown_attribute(class: &Name, id: u32, name: Text) -> DbFault
    ensures { (result ≡ faults.Memory → ⊥) → result ≡ faults.UnknownAttribute class.now id name }
{
    match class.copy() {
        Ok(class) => DbFault::UnknownAttribute { class, id, name },
        Err(wanting) => DbFault::from(wanting),
    }
}

// The object that the members of an element write.
fn read_members(
    alloc: Global,
    ids: &Ids,
    class: &IndexedClass,
    object: &Members<'_>,
) -> Result<ObjectDef, DbFault>
    ensures { Finds (object_fault (there ids.now) class.now (table_view object.now))
        (λ o. object_tree o ≡ object_in class.now (table_view object.now)) result }
{
    let id = id_among(object).unwrap_or(0);
    let unknown = unknown_label(alloc, class, object)?;
    match unknown {
        Some(name) => Err(unknown_attribute(&class.get().name, id, name)),
        None => read_known(alloc, ids, class.get(), id, object),
    }
}

// The object that an element writes.
fn read_object(
    alloc: Global,
    ids: &Ids,
    class: &IndexedClass,
    element: Json<'_>,
) -> Result<ObjectDef, DbFault>
    ensures { Finds (object_fault (there ids.now) class.now (view element.entry))
        (λ o. object_tree o ≡ object_in class.now (view element.entry)) result }
{
    let members = members_of(alloc, element)?;
    read_members(alloc, ids, class, &members)
}

// The objects of a class that elements write. Each element goes as soon as its object is made.
fn read_class(
    alloc: Global,
    ids: &Ids,
    class: &IndexedClass,
    elements: Vec<Json<'_>>,
) -> Result<Vec<ObjectDef>, DbFault>
    ensures { Finds (first_of (object_fault (there ids.now) class.now) (map view elements.entry.items))
        (λ v. map object_tree v.items ≡ map (object_in class.now) (map view elements.entry.items)) result }
{
    let mut objects = Vec::new(alloc);
    for element in elements {
        let object = read_object(alloc, ids, class, element)?;
        objects.push(object)?;
    }
    Ok(objects)
}

// The elements of the extent of a name, taken out of the members.
fn elements_of<'a>(alloc: Global, members: &mut Members<'a>, extent: &Name) -> Vec<Json<'a>>
    ensures taken { map view result.items ≡ elements_at extent.now members.old.entries }
    ensures others { AreLeft extent.now members.old.entries members.new.entries }
{
    match members.remove(extent.as_text()) {
        Some(member) => elements_in(alloc, member),
        None => Vec::new(alloc),
    }
}

// The objects of each class, of which the members have the elements.
pub(crate) fn read_objects(
    alloc: Global,
    schema: &Schema,
    ids: &Ids,
    given: Members<'_>,
) -> Result<Vec<Vec<ObjectDef>>, DbFault>
    ensures { Finds (first_of (objects_fault (there ids.now) (table_view given.entry)) schema.now)
        (λ v. map (λ l. map object_tree l.items) v.items
        ≡ map (objects_in (table_view given.entry)) schema.now) result }
{
    schema.well_formed();
    let mut members = given;
    let mut lists = Vec::new(alloc);
    for class in schema.classes() {
        let elements = elements_of(alloc, &mut members, &class.get().extent);
        let objects = read_class(alloc, ids, class, elements)?;
        lists.push(objects)?;
    }
    Ok(lists)
}

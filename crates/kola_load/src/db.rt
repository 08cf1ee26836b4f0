//! Databases from their text.
ghost use Rattle.std.specs.Prelude.{◌≡◌, map, flat_map, IfOk, IfErr};
ghost use Rattle.kola_values.specs.Sets.{Each};
ghost use Rattle.kola_database.specs.MeetsTests.{IsHeld};
ghost use Rattle.kola_database.specs.ObjectViews.{object_tree};
ghost use Rattle.kola_load.specs.Calls.{Finds, FindsLists, lists_tree};
ghost use Rattle.kola_load.specs.JsonViews.{view, table_view};
ghost use Rattle.kola_load.specs.KeyViews.{AreOfClasses, lists_fault};
ghost use Rattle.kola_load.specs.Loaded.{IsLoaded, IsFirstFault};

use crate::DbFault;
use crate::document::read_json;
use crate::elements::all_ids;
use crate::extents::check_members;
use crate::keys::check_keys;
use crate::members::{Members, members_of};
use crate::objects::read_objects;
use crate::parts::is_object;
use json::{Scratch, Value};
use kola_core::Memory;
use kola_database::{Db, ObjectDef};
use kola_schema::Schema;
use std::alloc::Global;

// The lists one behind the other. The first is taken as it is.
fn joined(alloc: Global, lists: Vec<Vec<ObjectDef>>) -> Result<Vec<ObjectDef>, Memory>
    ensures { IfOk result (λ v. map object_tree v.items ≡ flat_map (λ os. map object_tree os.items) lists.items) }
{
    let mut all = Vec::new(alloc);
    for list in lists {
        let mut list = list;
        if all.is_empty() {
            all = list;
        } else {
            all.append(&mut list)?;
        }
    }
    Ok(all)
}

// The objects of each class that the members of an object write. The members go as their objects come.
fn lists_in(
    alloc: Global,
    schema: &Schema,
    members: Members<'_>,
) -> Result<Vec<Vec<ObjectDef>>, DbFault>
    ensures { FindsLists schema.now (table_view members.entry) result }
{
    check_members(alloc, schema, &members)?;
    let ids = all_ids(alloc, schema, &members)?;
    read_objects(alloc, schema, &ids, members)
}

// The objects of each class that a value writes. The value goes as they come.
fn lists_of(
    alloc: Global,
    schema: &Schema,
    value: Value<'_>,
) -> Result<Vec<Vec<ObjectDef>>, DbFault>
    ensures { FindsLists schema.now (view value.entry) result }
{
    if !is_object(&value) {
        return Err(DbFault::NotObject);
    }
    let members = members_of(alloc, value)?;
    lists_in(alloc, schema, members)
}

// The objects of all classes, none of which agrees with an earlier one of its class on a key.
fn objects_of(
    alloc: Global,
    schema: &Schema,
    lists: Vec<Vec<ObjectDef>>,
) -> Result<Vec<ObjectDef>, DbFault>
    requires { AreOfClasses schema.now (lists_tree lists) }
    ensures { Finds (lists_fault schema.now (lists_tree lists))
        (λ v. map object_tree v.items ≡ flat_map (λ os. map object_tree os.items) lists.items) result }
{
    check_keys(alloc, schema, lists.as_slice())?;
    let objects = joined(alloc, lists)?;
    Ok(objects)
}

// What every object keeps.
fn held(object: &ObjectDef)
    ensures { IsHeld (object_tree object.now) }
{
    object.values.well_formed();
    let _id = object.id;
}

// What every object of a list keeps.
fn all_held(objects: &[ObjectDef])
    ensures { Each IsHeld (map object_tree objects.now) }
{
    for object in objects {
        held(object);
    }
}

/// The database of a schema that a text writes in JSON, or the text's first fault: that it is no JSON, or else the first fault of its value.
/// The value is an object whose members name extents. Each is an array of objects; an object has its id in the member `#`, and one member for
/// each attribute of its class. References are ids, sets are arrays in which a member may repeat, and an extent without a member is empty. A
/// text of blanks, tabs and line ends is taken as `{}`. The causes stand at `DbFault`, and come in four phases, each over the classes in the
/// order of the schema: first the members of the value, then the arrays and the ids of their elements, then the attributes of each object,
/// last the keys. `Memory` is answered where memory is wanted. The time goes with the length of the text times its logarithm.
pub fn read_db(alloc: Global, schema: &Schema, text: &[u8]) -> Result<Db, DbFault>
    ensures loaded { IfOk result (λ db. IsLoaded schema.now text.now db) }
    ensures fault { IfErr result (λ e. IsFirstFault schema.now text.now e) }
{
    schema.well_formed();
    let mut scratch = Scratch::new(alloc);
    let value = read_json(alloc, text, &mut scratch)?;
    let lists = lists_of(alloc, schema, value)?;
    drop(scratch);
    let objects = objects_of(alloc, schema, lists)?;
    all_held(objects.as_slice());
    let db = Db::make(alloc, schema, objects)?;
    Ok(db)
}

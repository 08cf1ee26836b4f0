//! The extents of a database: arrays of objects, each with an id that no earlier element has.
ghost use Rattle.std.specs.Prelude.{◌≡◌, ◌++◌, ◌∷◌, [], map};
ghost use Rattle.kola_load.specs.JsonViews.{view, table_view};
ghost use Rattle.kola_schema.specs.SchemaViews.{class_tree};
ghost use Rattle.kola_load.specs.Calls.{Finds, Nothing};
ghost use Rattle.kola_load.specs.Ids.{AreIds, AreAllIds};
ghost use Rattle.kola_load.specs.Loading.{first_of, first_among, element_fault, extent_fault};
ghost use Rattle.kola_load.specs.Written.{extent_of};

use crate::DbFault;
use crate::ids::Ids;
use crate::members::{Members, member_of};
use crate::parts::{array_of, is_object, own_id};
use json::Value;
use kola_schema::{ClassDef, Schema};
use std::alloc::Global;
use std::collections::BTreeSet;

// Takes the id of an element to those of the elements before it.
fn add_id(
    ids: &mut BTreeSet<u32>,
    class: &ClassDef,
    before: &[Value<'_>],
    element: &Value<'_>,
) -> Result<(), DbFault>
    requires { AreIds ids.old (map view before.now) }
    ensures { Finds (element_fault (class_tree class.now) (map view before.now) (view element.now))
        (λ _. AreIds ids.new (map view before.now ++ view element.now ∷ [])) result }
{
    let index = before.len();
    if !is_object(element) {
        return Err(DbFault::NotAnObject {
            extent: class.extent.copy()?,
            index,
        });
    }
    let Some(id) = own_id(element) else {
        return Err(DbFault::BadId {
            extent: class.extent.copy()?,
            index,
        });
    };
    let added = ids.insert(id)?;
    if !added {
        return Err(DbFault::TwiceId {
            extent: class.extent.copy()?,
            id,
        });
    }
    Ok(())
}

// The ids of the elements of the array of a class's extent.
fn element_ids(
    alloc: Global,
    class: &ClassDef,
    elements: &[Value<'_>],
) -> Result<BTreeSet<u32>, DbFault>
    ensures { Finds (first_among (element_fault (class_tree class.now)) [] (map view elements.now))
        (λ s. AreIds s (map view elements.now)) result }
{
    let mut ids = BTreeSet::new(alloc);
    for i in 0..elements.len() {
        add_id(&mut ids, class, &elements[..i], &elements[i])?;
    }
    Ok(ids)
}

// The ids of the elements of a class's extent.
fn extent_ids(
    alloc: Global,
    class: &ClassDef,
    members: &Members<'_>,
) -> Result<BTreeSet<u32>, DbFault>
    ensures { Finds (extent_fault (table_view members.now) (class_tree class.now))
        (λ s. AreIds s (extent_of (table_view members.now) (class_tree class.now))) result }
{
    let Some(member) = member_of(members, class.extent.as_text()) else {
        return Ok(BTreeSet::new(alloc));
    };
    let Some(elements) = array_of(member) else {
        return Err(DbFault::NotAnArray {
            extent: class.extent.copy()?,
        });
    };
    element_ids(alloc, class, elements)
}

// The ids of the objects of each class.
pub(crate) fn all_ids(alloc: Global, schema: &Schema, members: &Members<'_>) -> Result<Ids, DbFault>
    ensures { Finds (first_of (extent_fault (table_view members.now)) schema.now)
        (λ t. AreAllIds t schema.now (table_view members.now)) result }
{
    schema.well_formed();
    let mut table = Ids::new(alloc);
    for class in schema.classes() {
        let class = class.get();
        let ids = extent_ids(alloc, class, members)?;
        table.insert(alloc, &class.name, ids)?;
    }
    Ok(table)
}

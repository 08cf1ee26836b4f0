//! Classes, extents and attributes by their numbers, in the schema and in a database.

use crate::databases::{database, is_value};
use crate::samples::{Broken, schema};
use kola_database::Db;
use kola_schema::Schema;
use std::alloc::Global;
use std::test::Fail;

fn attribute_place(schema: &Schema, class: &str, a: &str) -> Option<usize> {
    let place = schema.class_place(class)?;
    let class = schema.classes().get(place)?;
    class.attribute_place(a)
}

/// The numbers of a class, of the class of an extent, and of the class's attribute.
fn places(
    alloc: Global,
    class: &str,
    extent: &str,
    a: &str,
) -> Result<(Option<usize>, Option<usize>, Option<usize>), Broken> {
    let schema = schema(alloc)?;
    Ok((
        schema.class_place(class),
        schema.extent_place(extent),
        attribute_place(&schema, class, a),
    ))
}

#[test]
fn numbers_of_names(rt: HostRuntime) -> Result<(), Fail> {
    for (class, extent, a, wanted) in [
        ("Person", "Vehicles", "ssn", (Some(0), Some(1), Some(0))),
        ("Person", "Persons", "cars", (Some(0), Some(0), Some(3))),
        ("Vehicle", "Vehicle", "year", (Some(1), None, Some(0))),
        ("Vehicle", "Persons", "cars", (Some(1), Some(0), None)),
        ("Persons", "Boats", "ssn", (None, None, None)),
    ] {
        assert_eq!(rt;
            places(rt.alloc(), class, extent, a)?,
            wanted,
            "{class} {extent} {a}"
        );
    }
    Ok(())
}

fn members_at(db: &Db, class: usize) -> Option<usize> {
    let extent = db.extent_at(class)?;
    Some(extent.len())
}

fn members(alloc: Global, class: usize) -> Result<Option<usize>, Broken> {
    match database(alloc)? {
        Some(db) => Ok(members_at(&db, class)),
        None => Ok(None),
    }
}

/// Whether the attribute of the object has the text, by the numbers of the class and of the attribute; the empty text stands for
/// none.
fn is_attribute_at(
    alloc: Global,
    class: usize,
    id: u32,
    a: usize,
    text: &str,
) -> Result<bool, Broken> {
    match database(alloc)? {
        Some(db) => Ok(is_value(alloc, db.attribute_at(class, id, a), text)?),
        None => Ok(false),
    }
}

#[test]
fn values_at_numbers(rt: HostRuntime) -> Result<(), Fail> {
    for (class, wanted) in [(0, Some(2)), (1, Some(2)), (2, None)] {
        assert_eq!(rt; members(rt.alloc(), class)?, wanted, "{class}");
    }
    for (class, id, a, text) in [
        (0, 2, 1, "\"Bob\""),
        (0, 2, 3, "{Vehicle#1, Vehicle#2}"),
        (0, 2, 4, ""),
        (1, 2, 0, "2001"),
        (1, 3, 0, ""),
        (2, 1, 0, ""),
    ] {
        assert!(rt;
            is_attribute_at(rt.alloc(), class, id, a, text)?,
            "{class} {id} {a}"
        );
    }
    Ok(())
}

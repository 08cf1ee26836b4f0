//! Databases read from texts, their look-ups, and the faults of texts; objects that meet a schema or do not.

use crate::samples::{Broken, boxed, schema};
use kola_canon::value_text;
use kola_core::{Memory, Name, Text};
use kola_database::{Db, ObjectDef, ObjectsRefused, objects_ok};
use kola_load::{DbFault, read_db};
use kola_schema::Schema;
use kola_values::{Set, Ty, Value, ValueFields};
use std::alloc::Global;
use std::test::Fail;

fn members_of(alloc: Global, db: &Db, extent: &str) -> Result<usize, Memory> {
    let extent = Name::from_text(alloc, extent)?;
    match db.extent(&extent) {
        Some(set) => Ok(set.len()),
        None => Ok(0),
    }
}

/// The name of a fault's cause.
fn cause_of(fault: &DbFault) -> &'static str {
    match fault {
        DbFault::NotJson => "NotJson",
        DbFault::NotObject => "NotObject",
        DbFault::UnknownExtent { .. } => "UnknownExtent",
        DbFault::NotAnArray { .. } => "NotAnArray",
        DbFault::NotAnObject { .. } => "NotAnObject",
        DbFault::BadId { .. } => "BadId",
        DbFault::TwiceId { .. } => "TwiceId",
        DbFault::UnknownAttribute { .. } => "UnknownAttribute",
        DbFault::MissingAttribute { .. } => "MissingAttribute",
        DbFault::WrongType { .. } => "WrongType",
        DbFault::NoSuchObject { .. } => "NoSuchObject",
        DbFault::KeyRepeats { .. } => "KeyRepeats",
        DbFault::Memory => "Memory",
    }
}

fn shown_db(alloc: Global, db: &Db) -> Result<String, Memory> {
    let persons = members_of(alloc, db, "Persons")?;
    let vehicles = members_of(alloc, db, "Vehicles")?;
    format!(in alloc; "{persons} {vehicles}")
}

/// Whether a text writes so many persons and vehicles, or has a fault of this cause.
fn is_shown(alloc: Global, text: &[u8], wanted: &str) -> Result<bool, Broken> {
    let schema = schema(alloc)?;
    match read_db(alloc, &schema, text) {
        Ok(db) => Ok(shown_db(alloc, &db)?.as_str() == wanted),
        Err(fault) => Ok(cause_of(&fault) == wanted),
    }
}

const VEHICLES: &str = r##""Vehicles":[{"#":1,"year":1990},{"#":2,"year":2001}]"##;

/// Two persons, with the second's ssn and cars, and two vehicles.
fn sample(alloc: Global, ssn: &str, cars: &str) -> Result<String, Memory> {
    format!(in alloc;
        r##"{{"Persons":[{{"#":1,"ssn":"a","first":"Ann","last":"Lee","cars":[1]}},{{"#":2,"ssn":"{ssn}","first":"Bob","last":"Lee","cars":{cars}}}],{VEHICLES}}}"##
    )
}

fn is_sample_shown(alloc: Global, ssn: &str, cars: &str, wanted: &str) -> Result<bool, Broken> {
    let text = sample(alloc, ssn, cars)?;
    is_shown(alloc, text.as_bytes(), wanted)
}

#[test]
fn persons_with_cars(rt: HostRuntime) -> Result<(), Fail> {
    for (ssn, cars, wanted) in [
        ("b", "[1,1]", "2 2"),
        ("a", "[1,1]", "KeyRepeats"),
        ("b", "[1,2,1,2,1,2,1,2,2,2,2,1]", "2 2"),
        ("b", "[]", "2 2"),
        ("b", "[7]", "NoSuchObject"),
        ("b", "[7,null]", "WrongType"),
        (r"\ud800", "[]", "NotJson"),
    ] {
        assert!(rt; is_sample_shown(rt.alloc(), ssn, cars, wanted)?, "{wanted}");
    }
    Ok(())
}

#[test]
fn texts_of_databases(rt: HostRuntime) -> Result<(), Fail> {
    for (text, wanted) in [
        ("", "0 0"),
        (" \t\r\n", "0 0"),
        ("{}", "0 0"),
        ("{", "NotJson"),
        ("[]", "NotObject"),
        (r##"{"Wheels":[],"Boats":[],"Persons":7}"##, "UnknownExtent"),
        (r##"{"Persons":[{"#":1}],"Vehicles":{}}"##, "NotAnArray"),
        (r##"{"Vehicles":[{"#":1},2]}"##, "NotAnObject"),
        (r##"{"Vehicles":[{"#":1},{"#":0}]}"##, "BadId"),
        (r##"{"Vehicles":[{"#":4294967295,"year":1}]}"##, "0 1"),
        (r##"{"Vehicles":[{"#":4294967296,"year":1}]}"##, "BadId"),
        (r##"{"Vehicles":[{"#":1},{"#":1}]}"##, "TwiceId"),
        (
            r##"{"Vehicles":[{"#":3,"wheels":4,"doors":2}]}"##,
            "UnknownAttribute",
        ),
        (r##"{"Vehicles":[{"#":3}]}"##, "MissingAttribute"),
        (r##"{"Vehicles":[{"#":3,"year":1.5}]}"##, "WrongType"),
        (
            r##"{"Vehicles":[{"#":3,"year":-9223372036854775808}]}"##,
            "0 1",
        ),
        (
            r##"{"Vehicles":[{"#":3,"year":9223372036854775808}]}"##,
            "WrongType",
        ),
    ] {
        assert!(rt; is_shown(rt.alloc(), text.as_bytes(), wanted)?, "{text}");
    }
    assert!(rt; is_shown(rt.alloc(), b"\"\xff\"", "NotJson")?);
    Ok(())
}

/// Whether a value is there and has the text; the empty text stands for none.
pub(crate) fn is_value(alloc: Global, found: Option<&Value>, text: &str) -> Result<bool, Memory> {
    match found {
        Some(v) => {
            let found = value_text(alloc, v, &Ty::Unit)?;
            Ok(found.as_slice() == text.as_bytes())
        }
        None => Ok(text.is_empty()),
    }
}

/// Whether the object is there with the attribute's value; the empty text stands for none.
fn has_value(
    alloc: Global,
    db: &Db,
    class: &str,
    id: u32,
    a: &str,
    text: &str,
) -> Result<bool, Memory> {
    let class = Name::from_text(alloc, class)?;
    let a = Name::from_text(alloc, a)?;
    is_value(alloc, db.attribute(&class, id, &a), text)
}

/// The sample's database.
pub(crate) fn database(alloc: Global) -> Result<Option<Box<Db>>, Broken> {
    let schema = schema(alloc)?;
    let text = sample(alloc, "b", "[2,1]")?;
    let Ok(db) = read_db(alloc, &schema, text.as_bytes()) else {
        return Ok(None);
    };
    let db = boxed(alloc, db)?;
    Ok(Some(db))
}

fn is_attribute(alloc: Global, class: &str, id: u32, a: &str, text: &str) -> Result<bool, Broken> {
    match database(alloc)? {
        Some(db) => Ok(has_value(alloc, &db, class, id, a, text)?),
        None => Ok(false),
    }
}

#[test]
fn values_of_attributes(rt: HostRuntime) -> Result<(), Fail> {
    for (class, id, a, text) in [
        ("Vehicle", 1, "year", "1990"),
        ("Vehicle", 2, "year", "2001"),
        ("Vehicle", 3, "year", ""),
        ("Person", 1, "year", ""),
        ("Person", 2, "cars", "{Vehicle#1, Vehicle#2}"),
        ("Person", 2, "first", "\"Bob\""),
    ] {
        assert!(rt;
            is_attribute(rt.alloc(), class, id, a, text)?,
            "{class} {id} {a}"
        );
    }
    Ok(())
}

fn only(alloc: Global, value: Value) -> Result<Value, Memory> {
    let mut members = Vec::new(alloc);
    members.push(value)?;
    Ok(Value::Set(Set::from_members(alloc, members)?))
}

fn push(values: &mut ValueFields, alloc: Global, a: &str, value: Value) -> Result<(), Memory> {
    let a = Name::from_text(alloc, a)?;
    values.push((a, value))
}

fn push_string(values: &mut ValueFields, alloc: Global, a: &str, text: &str) -> Result<(), Memory> {
    let text = Text::from_text(alloc, text)?;
    push(values, alloc, a, Value::Str(text))
}

fn object(alloc: Global, class: &str, id: u32, values: ValueFields) -> Result<ObjectDef, Memory> {
    let class = Name::from_text(alloc, class)?;
    Ok(ObjectDef { class, id, values })
}

/// The person with the ssn and the first name, whose one car is the object of the class and the id.
fn person(
    alloc: Global,
    id: u32,
    texts: (&str, &str),
    class: &str,
    car: u32,
) -> Result<ObjectDef, Memory> {
    let mut values = ValueFields::new(alloc);
    push_string(&mut values, alloc, "ssn", texts.0)?;
    push_string(&mut values, alloc, "last", "Lee")?;
    push_string(&mut values, alloc, "first", texts.1)?;
    let car = Value::Obj(Name::from_text(alloc, class)?, car);
    push(&mut values, alloc, "cars", only(alloc, car)?)?;
    object(alloc, "Person", id, values)
}

fn vehicle(alloc: Global, id: u32, year: i64) -> Result<ObjectDef, Memory> {
    let mut values = ValueFields::new(alloc);
    push(&mut values, alloc, "year", Value::Int(year))?;
    object(alloc, "Vehicle", id, values)
}

/// Two vehicles, Ann Lee, and the person.
fn objects(
    alloc: Global,
    id: u32,
    texts: (&str, &str),
    class: &str,
    car: u32,
) -> Result<Vec<ObjectDef>, Memory> {
    let mut objects = Vec::new(alloc);
    objects.push(vehicle(alloc, 2, 2001)?)?;
    objects.push(person(alloc, 1, ("a", "Ann"), "Vehicle", 2)?)?;
    objects.push(person(alloc, id, texts, class, car)?)?;
    objects.push(vehicle(alloc, 1, 1990)?)?;
    Ok(objects)
}

/// Whether the objects make a database; none where memory is wanted.
fn make(alloc: Global, schema: &Schema, objects: Vec<ObjectDef>) -> Option<bool> {
    match Db::try_make(alloc, schema, objects) {
        Ok(_) => Some(true),
        Err(ObjectsRefused::NotMet) => Some(false),
        Err(ObjectsRefused::Memory) => None,
    }
}

/// Whether the objects are accepted by the test, and whether they make a database.
fn verdicts(
    alloc: Global,
    id: u32,
    texts: (&str, &str),
    class: &str,
    car: u32,
) -> Result<(bool, Option<bool>), Broken> {
    let schema = schema(alloc)?;
    let objects = objects(alloc, id, texts, class, car)?;
    let accepted = objects_ok(&schema, objects.as_slice());
    Ok((accepted, make(alloc, &schema, objects)))
}

/// The ids, the texts and the cars of a second person, and whether the objects then meet the schema.
const SECOND: [(u32, (&str, &str), &str, u32, bool); 7] = [
    (2, ("b", "Bob"), "Vehicle", 1, true),
    // The keys: the ssn, and both names.
    (2, ("a", "Bob"), "Vehicle", 1, false),
    (2, ("b", "Ann"), "Vehicle", 1, false),
    // No such vehicle, and an object of another class.
    (2, ("b", "Bob"), "Vehicle", 7, false),
    (2, ("b", "Bob"), "Person", 1, false),
    // An id that is there, and one that is none.
    (1, ("b", "Bob"), "Vehicle", 1, false),
    (0, ("b", "Bob"), "Vehicle", 1, false),
];

#[test]
fn objects_meet_the_schema(rt: HostRuntime) -> Result<(), Fail> {
    for (id, texts, class, car, wanted) in SECOND {
        assert_eq!(rt;
            verdicts(rt.alloc(), id, texts, class, car)?,
            (wanted, Some(wanted))
        );
    }
    Ok(())
}

/// How many persons the database of these objects has; none where they do not meet the schema.
fn persons_in(
    alloc: Global,
    schema: &Schema,
    objects: Vec<ObjectDef>,
) -> Result<Option<usize>, Memory> {
    if !objects_ok(schema, objects.as_slice()) {
        return Ok(None);
    }
    let db = boxed(alloc, Db::make(alloc, schema, objects)?)?;
    Ok(Some(members_of(alloc, &db, "Persons")?))
}

fn persons_of(
    alloc: Global,
    id: u32,
    texts: (&str, &str),
    class: &str,
    car: u32,
) -> Result<Option<usize>, Broken> {
    let schema = schema(alloc)?;
    let objects = objects(alloc, id, texts, class, car)?;
    Ok(persons_in(alloc, &schema, objects)?)
}

#[test]
fn objects_make_a_database(rt: HostRuntime) -> Result<(), Fail> {
    for (id, texts, class, car, meet) in SECOND {
        let wanted = if meet { Some(2) } else { None };
        assert_eq!(rt; persons_of(rt.alloc(), id, texts, class, car)?, wanted);
    }
    Ok(())
}

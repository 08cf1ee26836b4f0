//! Schemas read from texts, their look-ups, and their first faults.

use crate::samples::{Broken, schema};
use kola_base::LexWhy;
use kola_canon::type_text;
use kola_core::{Memory, Name};
use kola_load::{SchemaFault, SchemaWhy, read_schema};
use kola_schema::Schema;
use kola_values::Ty;
use std::alloc::Global;
use std::test::Fail;

/// How many classes the schema of a text has.
fn classes_of(alloc: Global, text: &str) -> Result<usize, SchemaFault> {
    let schema = read_schema(alloc, text.as_bytes())?;
    Ok(schema.classes().len())
}

#[test]
fn texts_of_schemas(rt: HostRuntime) -> Result<(), Fail> {
    for (text, classes) in [
        ("", 0),
        ("class A (extent Ps) {}", 1),
        (
            "class A (extent Ps key a, key (a, b)) { attribute long a; attribute boolean b; };",
            1,
        ),
        (
            "class A (extent Ps) { attribute set<B> b; } class B (extent class) {}",
            2,
        ),
        (
            "class A (extent A key key) { attribute set<set<string>> key; }",
            1,
        ),
    ] {
        assert_eq!(rt; classes_of(rt.alloc(), text)?, classes, "{text}");
    }
    Ok(())
}

/// The place and the cause of a text's fault; none where it is a schema.
fn fault_of(alloc: Global, text: &[u8]) -> Option<(usize, SchemaWhy)> {
    match read_schema(alloc, text) {
        Err(SchemaFault::At { at, why }) => Some((at, why)),
        _ => None,
    }
}

#[test]
fn first_faults(rt: HostRuntime) -> Result<(), Fail> {
    for (text, at, why) in [
        ("class A $", 8, SchemaWhy::Lex(LexWhy::BadByte)),
        ("class A (extent Ps)", 19, SchemaWhy::Unexpected),
        ("class A (extent Ps) {};;", 23, SchemaWhy::Unexpected),
        (
            "class A (extent Ps) { attribute set b; }",
            36,
            SchemaWhy::Unexpected,
        ),
        ("class a (extent Ps) {}", 6, SchemaWhy::NameNotAllowed),
        ("class A (extent Select) {}", 16, SchemaWhy::NameNotAllowed),
        ("class A (extent LIKE) {}", 16, SchemaWhy::NameNotAllowed),
        ("class A (extent SKIP) {}", 16, SchemaWhy::NameNotAllowed),
        (
            "class A (extent E) {} class A (extent E) {}",
            28,
            SchemaWhy::TwiceDefined,
        ),
        (
            "class A (extent E) { attribute int x; attribute int x; }",
            52,
            SchemaWhy::TwiceDefined,
        ),
        (
            "class A (extent E) { attribute set<B> x; }",
            35,
            SchemaWhy::UnknownClass,
        ),
        (
            "class A (extent E key y) { attribute B x; }",
            22,
            SchemaWhy::UnknownKeyAttribute,
        ),
    ] {
        assert_eq!(rt;
            fault_of(rt.alloc(), text.as_bytes()),
            Some((at, why)),
            "{text}"
        );
    }
    Ok(())
}

/// A class with an attribute of so many sets of integers, one in the other.
fn nested(alloc: Global, sets: usize) -> Result<Vec<u8>, Memory> {
    let mut text = Vec::new(alloc);
    text.extend_from_slice(b"class A (extent E) { attribute ")?;
    for _ in 0..sets {
        text.extend_from_slice(b"set<")?;
    }
    text.extend_from_slice(b"int")?;
    for _ in 0..sets {
        text.push(b'>')?;
    }
    text.extend_from_slice(b" x; }")?;
    Ok(text)
}

fn fault_of_nested(alloc: Global, sets: usize) -> Result<Option<(usize, SchemaWhy)>, Memory> {
    let text = nested(alloc, sets)?;
    Ok(fault_of(alloc, text.as_slice()))
}

#[test]
fn at_most_100_sets(rt: HostRuntime) -> Result<(), Fail> {
    assert_eq!(rt; fault_of_nested(rt.alloc(), 100)?, None);
    let at_the_next = 31 + 4 * 100;
    assert_eq!(rt;
        fault_of_nested(rt.alloc(), 101)?,
        Some((at_the_next, SchemaWhy::TooDeep))
    );
    Ok(())
}

fn is_named(found: Option<&Name>, text: &str) -> bool {
    match found {
        Some(name) => name.as_text() == text,
        None => text.is_empty(),
    }
}

/// Whether the extent is of the class, and the class has the extent; an empty name stands for none.
fn are_joined(alloc: Global, class: &str, extent: &str) -> Result<bool, Broken> {
    let schema = schema(alloc)?;
    let c = Name::from_text(alloc, class)?;
    let e = Name::from_text(alloc, extent)?;
    Ok(is_named(schema.class_of(&e), class) && is_named(schema.extent_of(&c), extent))
}

#[test]
fn classes_and_extents(rt: HostRuntime) -> Result<(), Fail> {
    for (class, extent, wanted) in [
        ("Person", "Persons", true),
        ("Vehicle", "Vehicles", true),
        ("Vehicle", "Persons", false),
        ("Boat", "Boats", false),
    ] {
        assert_eq!(rt; are_joined(rt.alloc(), class, extent)?, wanted, "{class}");
    }
    Ok(())
}

fn is_type(alloc: Global, found: Option<&Ty>, text: &str) -> Result<bool, Memory> {
    match found {
        Some(t) => {
            let found = type_text(alloc, t)?;
            Ok(found.as_slice() == text.as_bytes())
        }
        None => Ok(text.is_empty()),
    }
}

/// Whether the class has the attribute with the type of the text; the empty text stands for no such attribute.
fn has_attribute(
    alloc: Global,
    schema: &Schema,
    class: &str,
    a: &str,
    text: &str,
) -> Result<bool, Memory> {
    let class = Name::from_text(alloc, class)?;
    let a = Name::from_text(alloc, a)?;
    is_type(alloc, schema.attribute(&class, &a), text)
}

fn is_attribute(alloc: Global, class: &str, a: &str, text: &str) -> Result<bool, Broken> {
    let schema = schema(alloc)?;
    Ok(has_attribute(alloc, &schema, class, a, text)?)
}

#[test]
fn attributes_of_classes(rt: HostRuntime) -> Result<(), Fail> {
    for (class, a, text) in [
        ("Person", "cars", "set<Vehicle>"),
        ("Person", "ssn", "string"),
        ("Vehicle", "year", "int"),
        ("Vehicle", "cars", ""),
        ("Boat", "year", ""),
    ] {
        assert!(rt; is_attribute(rt.alloc(), class, a, text)?, "{class} {a}");
    }
    Ok(())
}

/// How many attributes the key with the number has, from 0; none where the class has no such key.
fn key_len(alloc: Global, class: &str, n: usize) -> Result<Option<usize>, Broken> {
    let schema = schema(alloc)?;
    let class = Name::from_text(alloc, class)?;
    Ok(schema.key_of(&class, n).map(|key| key.len()))
}

#[test]
fn keys_of_classes(rt: HostRuntime) -> Result<(), Fail> {
    for (class, n, wanted) in [
        ("Person", 0, Some(1)),
        ("Person", 1, Some(2)),
        ("Person", 2, None),
        ("Vehicle", 0, None),
    ] {
        assert_eq!(rt; key_len(rt.alloc(), class, n)?, wanted, "{class}");
    }
    Ok(())
}

/// The number of classes of a schema that is made of none.
fn made_of_none(alloc: Global) -> Result<usize, Memory> {
    let schema = Schema::make(alloc, Vec::new(alloc))?;
    Ok(schema.classes().len())
}

#[test]
fn a_schema_of_no_class(rt: HostRuntime) -> Result<(), Fail> {
    assert_eq!(rt; made_of_none(rt.alloc())?, 0);
    Ok(())
}

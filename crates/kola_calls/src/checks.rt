//! The types of queries, and the first fault of each query that has none.

use crate::queries::{is_printed, query};
use crate::samples::{Broken, boxed, schema};
use kola_canon::type_text;
use oql_check::{CheckFault, CheckWhy, Typed, check_query};
use oql_print::print_query;
use oql_tree::Query;
use std::alloc::Global;
use std::test::Fail;

/// A query with its type, or its fault with the query.
type Checked = Result<Typed, (CheckFault, Query)>;

/// What the check answers for a query.
fn checked(alloc: Global, query: Box<Query>) -> Result<Box<Checked>, Broken> {
    let schema = schema(alloc)?;
    let checked = check_query(alloc, &schema, Box::into_inner(query));
    Ok(boxed(alloc, checked)?)
}

/// Whether the query has this type, and is printed so.
fn has_type(alloc: Global, checked: &Checked, text: &[u8], wanted: &str) -> Result<bool, Broken> {
    let Ok(typed) = checked else {
        return Ok(false);
    };
    let ty = type_text(alloc, typed.ty())?;
    Ok(ty.as_slice() == wanted.as_bytes() && is_printed(alloc, typed.query(), text)?)
}

fn is_typed(alloc: Global, text: &str, wanted: &str) -> Result<bool, Broken> {
    let query = query(alloc, text.as_bytes())?;
    let printed = print_query(alloc, &query)?;
    let checked = checked(alloc, query)?;
    has_type(alloc, &checked, &printed, wanted)
}

/// Queries with their types.
const TYPES: [(&str, &str); 15] = [
    (
        "select distinct x from x in set(3, 1, 2, 3) where x < 3",
        "set<int>",
    ),
    (
        "select distinct (select distinct x from x in x.cars) from x in Persons",
        "set<set<Vehicle>>",
    ),
    (
        "select distinct Persons from Persons in Vehicles",
        "set<Vehicle>",
    ),
    (
        "select distinct struct(v: v, owners: select distinct p from p in Persons where v in p.cars) from v in Vehicles",
        "set<struct(v: Vehicle, owners: set<Person>)>",
    ),
    (
        "select distinct c.year from p in Persons, c in p.cars",
        "set<int>",
    ),
    ("exists(Vehicles except Vehicles)", "bool"),
    ("for all x in Vehicles except Vehicles : x.year < 0", "bool"),
    (
        "select distinct struct(p: p.first, q: p.ssn, r: p.last).q from p in Persons",
        "set<string>",
    ),
    (
        "select distinct struct(l: p.last, s: p.ssn) from p in Persons",
        "set<struct(l: string, s: string)>",
    ),
    (
        "select distinct x from x in set(9223372036854775807)",
        "set<int>",
    ),
    (
        "flatten(select distinct p.cars from p in Persons)",
        "set<Vehicle>",
    ),
    ("(Persons intersect Persons) union Persons", "set<Person>"),
    // The newest of two variables of one name, and the older one again behind a quantifier.
    (
        "select distinct x from x in Persons, x in x.cars",
        "set<Vehicle>",
    ),
    (
        "select distinct x from x in set(1) where (exists x in Persons : x.ssn = \"a\") or x = 1",
        "set<int>",
    ),
    (
        "select distinct x from x in set(1), y in set(\"a\") where not y = \"b\"",
        "set<int>",
    ),
];

#[test]
fn queries_have_types(rt: HostRuntime) -> Result<(), Fail> {
    for (text, wanted) in TYPES {
        assert!(rt; is_typed(rt.alloc(), text, wanted)?, "{text}");
    }
    Ok(())
}

/// Whether the query has this fault, and is handed back.
fn has_fault(
    alloc: Global,
    checked: &Checked,
    text: &[u8],
    place: usize,
    cause: &str,
) -> Result<bool, Broken> {
    match checked {
        Err((CheckFault::At { at, why }, query)) => Ok(
            *at == place && why.name() == cause && is_printed(alloc, query, text)?,
        ),
        _ => Ok(false),
    }
}

fn is_refused(alloc: Global, text: &str, place: usize, cause: &str) -> Result<bool, Broken> {
    let query = query(alloc, text.as_bytes())?;
    let printed = print_query(alloc, &query)?;
    let checked = checked(alloc, query)?;
    has_fault(alloc, &checked, &printed, place, cause)
}

/// Queries of one fault, each with its place and cause.
const FAULTS: [(&str, usize, &str); 22] = [
    ("Dogs", 0, "UnknownName"),
    (
        "select distinct x.wheels from x in Persons",
        18,
        "NoSuchAttribute",
    ),
    ("struct(a: 1).b", 13, "NoSuchAttribute"),
    ("select distinct x from x in 1", 23, "NotASet"),
    ("exists x in 1 : true", 0, "NotASet"),
    ("Persons union 1", 8, "NotASet"),
    ("1 in 2", 2, "NotASet"),
    ("exists(1)", 0, "NotASet"),
    ("flatten(Persons)", 0, "NotASet"),
    ("true and 1", 5, "NotBool"),
    ("not 1", 0, "NotBool"),
    ("select distinct x from x in set(1) where x", 35, "NotBool"),
    ("for all x in set(1) : x", 0, "NotBool"),
    ("set(1, 2, \"a\", true)", 10, "TypesDiffer"),
    ("Persons except Vehicles", 8, "TypesDiffer"),
    ("1 = \"a\"", 2, "TypesDiffer"),
    ("\"a\" in set(1)", 4, "TypesDiffer"),
    ("struct(a: 1, b: 2) = struct(b: 1, a: 2)", 19, "TypesDiffer"),
    ("true < true", 5, "NotOrdered"),
    (
        "select distinct struct(a: 1, a: 2) from x in set(1)",
        29,
        "RepeatedLabel",
    ),
    (
        "struct(a: 1, b: 2, c: 3, d: 4, e: 5, f: 6, g: 7, h: 8, i: 9)",
        55,
        "TooManyFields",
    ),
    (
        "select distinct x from x in set(1) where y = 1",
        41,
        "UnknownName",
    ),
];

#[test]
fn queries_have_faults(rt: HostRuntime) -> Result<(), Fail> {
    for (text, at, cause) in FAULTS {
        assert!(rt; is_refused(rt.alloc(), text, at, cause)?, "{text}");
    }
    Ok(())
}

/// Queries of two faults, each with the one that comes first.
const ORDERED: [(&str, usize, &str); 15] = [
    ("1 union Dogs", 8, "UnknownName"),
    ("1 and true and Dogs", 2, "NotBool"),
    ("true and 1 and 2", 5, "NotBool"),
    ("true and true and 2", 14, "NotBool"),
    (
        "select distinct x.wheels from x in Persons where 1",
        43,
        "NotBool",
    ),
    ("select distinct Dogs from x in 1 where Dogs", 26, "NotASet"),
    ("select distinct x from x in 1, y in Dogs", 23, "NotASet"),
    ("select distinct x from x in x", 28, "UnknownName"),
    ("exists x in 1 : Dogs", 0, "NotASet"),
    ("struct(a: 1, a: Dogs)", 13, "RepeatedLabel"),
    ("struct(a: Dogs, a: 1)", 10, "UnknownName"),
    (
        "struct(a: 1, b: 2, c: 3, d: 4, e: 5, f: 6, g: 7, h: 8, h: 9)",
        55,
        "RepeatedLabel",
    ),
    (
        "struct(a: 1, b: 2, c: 3, d: 4, e: 5, f: 6, g: 7, h: 8, i: Dogs)",
        55,
        "TooManyFields",
    ),
    ("true <= 1", 5, "TypesDiffer"),
    ("1 union \"a\"", 2, "NotASet"),
];

#[test]
fn the_first_of_two_faults_is_told(rt: HostRuntime) -> Result<(), Fail> {
    for (text, at, cause) in ORDERED {
        assert!(rt; is_refused(rt.alloc(), text, at, cause)?, "{text}");
    }
    Ok(())
}

/// `struct(a: E, b: E)` in itself, so many times round a number.
fn doubled(alloc: Global, times: usize) -> Result<String, Broken> {
    let mut text = String::new(alloc);
    text.push_str("1")?;
    for _ in 0..times {
        text = format!(in alloc; "struct(a: {text}, b: {text})")?;
    }
    Ok(text)
}

fn fault_in(checked: &Checked) -> Option<CheckFault> {
    match checked {
        Ok(_) => None,
        Err((fault, _)) => Some(*fault),
    }
}

/// The fault of the doubled struct; none where it has a type.
fn doubled_fault(alloc: Global, times: usize) -> Result<Option<CheckFault>, Broken> {
    let text = doubled(alloc, times)?;
    let query = query(alloc, text.as_bytes())?;
    let checked = checked(alloc, query)?;
    Ok(fault_in(&checked))
}

#[test]
fn a_type_has_at_most_4096_nodes(rt: HostRuntime) -> Result<(), Fail> {
    // Eleven times make 4,095 nodes, and twelve 8,191.
    assert_eq!(rt; doubled_fault(rt.alloc(), 11)?, None);
    let fault = CheckFault::At {
        at: 0,
        why: CheckWhy::TypeTooLarge,
    };
    assert_eq!(rt; doubled_fault(rt.alloc(), 12)?, Some(fault));
    Ok(())
}

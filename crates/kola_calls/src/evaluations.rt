//! The values of terms and the members that they visit, in the sample's database.

use crate::samples::{Broken, schema, term};
use kola_canon::value_text;
use kola_eval::{EvalFault, Evaluated, eval};
use kola_load::read_db;
use kola_schema::Schema;
use kola_term::{Fun, Term};
use kola_values::{Ty, Value};
use std::alloc::Global;
use std::test::Fail;

const DATABASE: &str =
    "{\"Persons\":[{\"#\":2,\"ssn\":\"b\",\"first\":\"Bob\",\"last\":\"Lee\",\"cars\":[1,1]},
            {\"#\":1,\"ssn\":\"a\",\"first\":\"Ann\",\"last\":\"Lee\",\"cars\":[1]}],
 \"Vehicles\":[{\"#\":1,\"year\":1990},{\"#\":2,\"year\":2001}]}";

/// The value of a function at the unit in the sample's database, within a limit of visits.
fn evaluated(
    alloc: Global,
    schema: &Schema,
    f: &Fun,
    limit: u64,
) -> Result<Result<Evaluated, EvalFault>, Broken> {
    match read_db(alloc, schema, DATABASE.as_bytes()) {
        Ok(db) => Ok(eval(alloc, schema, &db, f, &Value::Unit, limit)),
        Err(_fault) => Err(Broken::Refused),
    }
}

/// The value of a term at the unit.
fn value_of(alloc: Global, text: &str, limit: u64) -> Result<Result<Evaluated, EvalFault>, Broken> {
    let schema = schema(alloc)?;
    let term = term(alloc, text)?;
    match &*term {
        Term::F(f) => evaluated(alloc, &schema, f, limit),
        _ => Err(Broken::Refused),
    }
}

/// Whether a value is written so.
fn is_written(alloc: Global, value: &Value, text: &str) -> Result<bool, Broken> {
    let written = value_text(alloc, value, &Ty::Unit)?;
    Ok(written.as_slice() == text.as_bytes())
}

/// Whether a term has this value, and visits so many members.
fn has_value(alloc: Global, text: &str, value: &str, visits: u64) -> Result<bool, Broken> {
    match value_of(alloc, text, visits)? {
        Ok(found) => Ok(found.visits == visits && is_written(alloc, &found.value, value)?),
        Err(_fault) => Ok(false),
    }
}

/// Terms with their values at the unit and the members that they visit.
const VALUES: [(&str, &str, u64); 14] = [
    ("K(5)", "5", 0),
    ("<K(1), K(\"x\")>", "[1, \"x\"]", 0),
    ("K(Persons)", "{Person#1, Person#2}", 0),
    (
        "(iterate(KP(true), .ssn) o K(Persons))",
        "{\"a\", \"b\"}",
        2,
    ),
    (
        "(iterate((eq @ <.last, K(\"Lee\")>), .last) o K(Persons))",
        "{\"Lee\"}",
        2,
    ),
    (
        "(flat o (iterate(KP(true), .cars) o K(Persons)))",
        "{Vehicle#1}",
        3,
    ),
    (
        "(iter((lt @ <(.year o snd), K(2000)>), snd) o <id, K(Vehicles)>)",
        "{Vehicle#1}",
        2,
    ),
    (
        "(join((in @ <snd, (.cars o fst)>), fst) o <K(Persons), K(Vehicles)>)",
        "{Person#1, Person#2}",
        4,
    ),
    (
        "(nest(.last, .ssn) o <K(Persons), K({\"Kim\", \"Lee\"})>)",
        "{[\"Kim\", {}], [\"Lee\", {\"a\", \"b\"}]}",
        4,
    ),
    (
        "(unnest(.ssn, .cars) o K(Persons))",
        "{[\"a\", Vehicle#1], [\"b\", Vehicle#1]}",
        4,
    ),
    ("(union o <K({3, 1}), K({2, 3})>)", "{1, 2, 3}", 0),
    ("(isect o <K({3, 1}), K({2, 3})>)", "{3}", 0),
    (
        "(if(ex((eq @ <snd, K(1)>)), K(1), K(2)) o <id, K({1, 2})>)",
        "1",
        1,
    ),
    (
        "(if(fa((eq @ <snd, K(1)>)), K(1), K(2)) o <id, K({1, 2})>)",
        "2",
        2,
    ),
];

#[test]
fn terms_have_values_and_visits(rt: HostRuntime) -> Result<(), Fail> {
    for (text, value, visits) in VALUES {
        assert!(rt; has_value(rt.alloc(), text, value, visits)?, "{text}");
    }
    Ok(())
}

/// Whether a term is refused within this limit, with the limit.
fn is_limited(alloc: Global, text: &str, limit: u64) -> Result<bool, Broken> {
    match value_of(alloc, text, limit)? {
        Err(EvalFault::VisitLimit { limit: told }) => Ok(told == limit),
        _ => Ok(false),
    }
}

#[test]
fn one_visit_less_is_too_few(rt: HostRuntime) -> Result<(), Fail> {
    for (text, _, visits) in VALUES {
        if visits > 0 {
            assert!(rt; is_limited(rt.alloc(), text, visits - 1)?, "{text}");
        }
    }
    Ok(())
}

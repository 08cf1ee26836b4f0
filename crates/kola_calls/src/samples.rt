//! Schemas, terms and paths made of texts.

use kola_core::{Items, Memory, Name, Path};
use kola_load::{SchemaFault, read_schema};
use kola_schema::Schema;
use kola_term::{MetaCtx, MetaTy, Term};
use kola_text::{TextFault, print_term, read_term};
use kola_values::Ty;
use std::alloc::Global;
use thiserror::Error;

/// Why a sample was not made.
#[derive(Clone, Copy, Debug, PartialEq, Eq, Error)]
pub(crate) enum Broken {
    #[error("want of memory")]
    Memory,
    #[error("the text of a sample is refused")]
    Refused,
}

impl From<Memory> for Broken {
    fn from(_e: Memory) -> Broken {
        Broken::Memory
    }
}

impl From<TextFault> for Broken {
    fn from(_e: TextFault) -> Broken {
        Broken::Refused
    }
}

impl From<SchemaFault> for Broken {
    fn from(_e: SchemaFault) -> Broken {
        Broken::Refused
    }
}

const SCHEMA: &str = "class Person (extent Persons, key ssn, key (first, last)) {
  attribute string ssn;
  attribute string first;
  attribute string last;
  attribute set<Vehicle> cars;
};
class Vehicle (extent Vehicles) { attribute int year; };";

/// A value in a box, which costs less to prove where it may be dropped.
pub(crate) fn boxed<T: Drop>(alloc: Global, value: T) -> Result<Box<T>, Memory> {
    let boxed = Box::new(alloc, value)?;
    Ok(boxed)
}

/// Persons with their vehicles.
pub(crate) fn schema(alloc: Global) -> Result<Box<Schema>, Broken> {
    let schema = read_schema(alloc, SCHEMA.as_bytes())?;
    Ok(boxed(alloc, schema)?)
}

/// A function `f`, a predicate `p` and a constant `c` of integers.
pub(crate) fn variables(alloc: Global) -> Result<MetaCtx, Memory> {
    let mut vars = Items::new(alloc);
    vars.push((Name::from_text(alloc, "f")?, MetaTy::Fun(Ty::Int, Ty::Int)))?;
    vars.push((Name::from_text(alloc, "p")?, MetaTy::Pred(Ty::Int)))?;
    vars.push((Name::from_text(alloc, "c")?, MetaTy::Const(Ty::Int)))?;
    Ok(vars)
}

/// The term of a text with these variables.
pub(crate) fn term_with(alloc: Global, text: &str, vars: &MetaCtx) -> Result<Box<Term>, Broken> {
    let term = read_term(alloc, text.as_bytes(), vars)?;
    Ok(boxed(alloc, term)?)
}

/// The term of a text.
pub(crate) fn term(alloc: Global, text: &str) -> Result<Box<Term>, Broken> {
    let vars = variables(alloc)?;
    term_with(alloc, text, &vars)
}

/// Whether a term is printed so.
pub(crate) fn is_printed(alloc: Global, term: &Term, text: &str) -> Result<bool, Memory> {
    let printed = print_term(alloc, term)?;
    Ok(printed.as_slice() == text.as_bytes())
}

/// The path of these numbers.
pub(crate) fn path(alloc: Global, numbers: &[u8]) -> Result<Path, Memory> {
    let mut path: Path = Items::new(alloc);
    for n in numbers {
        path.push(*n)?;
    }
    Ok(path)
}

//! Functions that are shown to be injective, and those that are not.

use crate::samples::{Broken, boxed, schema, term_with, variables};
use kola_core::{Memory, Name, Names};
use kola_injective::infer_inj;
use kola_schema::Schema;
use kola_term::{MetaCtx, Term};
use kola_values::Ty;
use std::alloc::Global;
use std::test::Fail;

/// The input types of the table.
#[derive(Clone, Copy)]
enum At {
    Integers,
    Persons,
    Pairs,
    Sets,
}

fn person(alloc: Global) -> Result<Ty, Memory> {
    Ok(Ty::Class(Name::from_text(alloc, "Person")?))
}

/// The type of the pairs of an integer and a person.
fn pairs(alloc: Global) -> Result<Ty, Memory> {
    let second = person(alloc)?;
    Ty::pair_of(alloc, Ty::Int, second)
}

fn sets(alloc: Global) -> Result<Ty, Memory> {
    let member = person(alloc)?;
    Ty::set_of(alloc, member)
}

fn type_at(alloc: Global, at: At) -> Result<Ty, Memory> {
    match at {
        At::Integers => Ok(Ty::Int),
        At::Persons => person(alloc),
        At::Pairs => pairs(alloc),
        At::Sets => sets(alloc),
    }
}

/// The one name `f`, or none.
fn supposed(alloc: Global, is_there: bool) -> Result<Names, Memory> {
    let mut names = Names::new(alloc);
    if is_there {
        names.push(Name::from_text(alloc, "f")?)?;
    }
    Ok(names)
}

/// Whether a term is a function that is shown to be injective, by the call of each of the two crates that have it.
fn are_injective(
    alloc: Global,
    schema: &Schema,
    vars: &MetaCtx,
    names: &Names,
    t: &Term,
    ty: &Ty,
) -> Result<(bool, bool), Memory> {
    match t {
        Term::F(f) => {
            let shown = infer_inj(alloc, schema, vars, names, f, ty)?;
            let again = kola_proof::infer_inj(alloc, schema, vars, names, f, ty)?;
            Ok((shown, again))
        }
        Term::P(_) | Term::C(_) => Ok((false, false)),
    }
}

/// The same of a text under the sample's variables, where `f` is supposed to be injective or not.
fn are_shown(
    alloc: Global,
    text: &str,
    ty: &Ty,
    vars: &MetaCtx,
    names: &Names,
) -> Result<(bool, bool), Broken> {
    let schema = schema(alloc)?;
    let t = term_with(alloc, text, vars)?;
    Ok(are_injective(alloc, &schema, vars, names, &t, ty)?)
}

fn are_shown_at(alloc: Global, text: &str, at: At, is_there: bool) -> Result<(bool, bool), Broken> {
    let ty = boxed(alloc, type_at(alloc, at)?)?;
    let vars = variables(alloc)?;
    let names = supposed(alloc, is_there)?;
    are_shown(alloc, text, &ty, &vars, &names)
}

/// Functions that are shown to be injective where the names are supposed, each at its type.
const SHOWN: [(&str, At); 11] = [
    ("id", At::Integers),
    (".ssn", At::Persons),
    ("<.first, .last>", At::Persons),
    ("<.last, .ssn>", At::Persons),
    ("(.ssn o id)", At::Persons),
    ("(id * .ssn)", At::Pairs),
    ("C(id, 1)", At::Persons),
    ("iterate(KP(true), .ssn)", At::Sets),
    ("f", At::Integers),
    ("<f, K(1)>", At::Integers),
    ("(f o f)", At::Integers),
];

#[test]
fn functions_are_shown_to_be_injective(rt: HostRuntime) -> Result<(), Fail> {
    for (text, at) in SHOWN {
        assert_eq!(rt;
            are_shown_at(rt.alloc(), text, at, true)?,
            (true, true),
            "{text}"
        );
    }
    Ok(())
}

/// Functions that are not, where no name is supposed.
const NOT_SHOWN: [(&str, At); 12] = [
    (".last", At::Persons),
    ("<.last, .first>", At::Persons),
    ("(.last o id)", At::Persons),
    ("(id * .last)", At::Pairs),
    ("(id * id)", At::Persons),
    ("fst", At::Pairs),
    ("K(1)", At::Integers),
    ("C(fst, 1)", At::Integers),
    ("iterate(KP(false), id)", At::Sets),
    ("iterate(KP(true), .last)", At::Sets),
    ("f", At::Integers),
    (".ssn", At::Integers),
];

#[test]
fn other_functions_are_not(rt: HostRuntime) -> Result<(), Fail> {
    for (text, at) in NOT_SHOWN {
        assert_eq!(rt;
            are_shown_at(rt.alloc(), text, at, false)?,
            (false, false),
            "{text}"
        );
    }
    Ok(())
}

//! Terms that are the same, that fit, or not.

use crate::samples::{Broken, schema, term_with, variables};
use kola_match::{same_part, sides_fit};
use kola_values::Ty;
use std::alloc::Global;
use std::test::Fail;

fn are_same(alloc: Global, left: &str, right: &str) -> Result<bool, Broken> {
    let vars = variables(alloc)?;
    let left = term_with(alloc, left, &vars)?;
    let right = term_with(alloc, right, &vars)?;
    Ok(same_part(left.as_part(), right.as_part()))
}

/// Terms, and whether they are the same.
const PAIRS: [(&str, &str, bool); 12] = [
    ("f", "f", true),
    ("f", "id", false),
    ("f", "p", false),
    ("<f, (f o id)>", "<f, (f o id)>", true),
    ("<f, (f o id)>", "<f, (id o f)>", false),
    ("if(p, f, K(c))", "if(p, f, K(c))", true),
    ("if(p, f, K(c))", "if(~p, f, K(c))", false),
    ("if(p, f, K(c))", "if(p, f, K(1))", false),
    ("(f o id)", "(f * id)", false),
    ("(p & KP(true))", "(p & KP(false))", false),
    ("{2, 1, 2}", "{1, 2}", true),
    ("{\"a\"}", "{\"b\"}", false),
];

#[test]
fn terms_are_the_same_or_not(rt: HostRuntime) -> Result<(), Fail> {
    for (left, right, wanted) in PAIRS {
        assert_eq!(rt; are_same(rt.alloc(), left, right)?, wanted, "{left}");
    }
    Ok(())
}

fn fit(alloc: Global, left: &str, right: &str) -> Result<bool, Broken> {
    let schema = schema(alloc)?;
    let vars = variables(alloc)?;
    let left = term_with(alloc, left, &vars)?;
    let right = term_with(alloc, right, &vars)?;
    Ok(sides_fit(alloc, &schema, &vars, &left, &right, &Ty::Int)?)
}

/// Terms, and whether they fit at the integers.
const SIDES: [(&str, &str, bool); 9] = [
    ("(f o id)", "f", true),
    ("f", "K(7)", true),
    ("f", "K(true)", false),
    ("f", "p", false),
    ("p", "(lt @ <f, id>)", true),
    ("p", "(lt @ f)", false),
    ("(f o K(true))", "f", false),
    ("f", "(f o K(true))", false),
    ("c", "c", false),
];

#[test]
fn sides_fit_or_not(rt: HostRuntime) -> Result<(), Fail> {
    for (left, right, wanted) in SIDES {
        assert_eq!(rt; fit(rt.alloc(), left, right)?, wanted, "{left}");
    }
    Ok(())
}

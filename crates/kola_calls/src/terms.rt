//! Terms: made of their parts, copied, counted, and with another part at a path.

use crate::samples::{Broken, boxed, is_printed, path, term};
use kola_core::{Memory, Path};
use kola_term::{
    Const, Fun, PlaceFault, Pred, SubTerm, Term, depth, make, nodes, replace_at, sub_at,
};
use std::alloc::Global;
use std::test::Fail;

/// A predicate of each constructor that makes one of its parts.
fn made_pred(alloc: Global) -> Result<Pred, Memory> {
    let p = make::at(alloc, Pred::Eq, Fun::Id)?;
    let p = make::and(alloc, p, Pred::Lt)?;
    let p = make::or(alloc, Pred::Le, p)?;
    let p = make::not(alloc, p)?;
    let p = make::inverse(alloc, p)?;
    let p = make::partial_pred(alloc, p, Const::Int(7))?;
    let p = make::some(alloc, p)?;
    make::each(alloc, p)
}

/// A function of each constructor that makes one of its parts.
fn made_fun(alloc: Global, p: Pred) -> Result<Fun, Memory> {
    let f = make::iterate(alloc, p, Fun::Fst)?;
    let f = make::iter(alloc, Pred::Eq, f)?;
    let f = make::join(alloc, Pred::Lt, f)?;
    let f = make::choice(alloc, Pred::Le, f, Fun::Snd)?;
    let f = make::partial(alloc, f, Const::Bool(true))?;
    let f = make::nest(alloc, f, Fun::Flat)?;
    let f = make::unnest(alloc, Fun::Union, f)?;
    let f = make::times(alloc, f, Fun::Isect)?;
    let f = make::pair(alloc, Fun::Minus, f)?;
    make::comp(alloc, f, Fun::Id)
}

const MADE: &str = "(<minus, (unnest(union, nest(C(if(le, join(lt, iter(eq, \
iterate(fa(ex(CP(inv(~(le | ((eq @ id) & lt))), 7))), fst))), snd), true), flat)) * isect)> o id)";

fn made(alloc: Global) -> Result<Box<Term>, Memory> {
    let p = made_pred(alloc)?;
    let f = made_fun(alloc, p)?;
    let made = boxed(alloc, Term::F(f))?;
    Ok(made)
}

/// A copy of a term.
fn copied(alloc: Global, t: &Term) -> Result<Box<Term>, Memory> {
    match t {
        Term::F(f) => copied_fun(alloc, f),
        Term::P(p) => copied_pred(alloc, p),
        Term::C(c) => copied_const(alloc, c),
    }
}

fn copied_fun(alloc: Global, f: &Fun) -> Result<Box<Term>, Memory> {
    let f = f.copy()?;
    let copied = boxed(alloc, Term::F(f))?;
    Ok(copied)
}

fn copied_pred(alloc: Global, p: &Pred) -> Result<Box<Term>, Memory> {
    let p = p.copy()?;
    let copied = boxed(alloc, Term::P(p))?;
    Ok(copied)
}

fn copied_const(alloc: Global, c: &Const) -> Result<Box<Term>, Memory> {
    let c = c.copy()?;
    let copied = boxed(alloc, Term::C(c))?;
    Ok(copied)
}

/// Whether a term that is made of its parts is printed so.
fn is_made(alloc: Global, text: &str) -> Result<bool, Memory> {
    let made = made(alloc)?;
    is_printed(alloc, &made, text)
}

/// Whether the copy of a text's term is printed as that text.
fn is_copied(alloc: Global, text: &str) -> Result<bool, Broken> {
    let t = term(alloc, text)?;
    let copy = copied(alloc, &t)?;
    Ok(is_printed(alloc, &copy, text)?)
}

#[test]
fn each_constructor_is_made_and_copied(rt: HostRuntime) -> Result<(), Fail> {
    assert!(rt; is_made(rt.alloc(), MADE)?);
    for text in [
        MADE,
        "<fst, <snd, <.year, <K(Persons), f>>>>",
        "(in & (KP(false) & p))",
        "c",
        "-7",
        "true",
        "\"a\"",
        "{1, 2}",
        "Persons",
    ] {
        assert!(rt; is_copied(rt.alloc(), text)?, "{text}");
    }
    Ok(())
}

/// The number of nodes of a text's term, and its depth.
fn counts(alloc: Global, text: &str) -> Result<(u64, u64), Broken> {
    let t = term(alloc, text)?;
    Ok((nodes(&t), depth(&t)))
}

#[test]
fn nodes_and_depths(rt: HostRuntime) -> Result<(), Fail> {
    for (text, wanted) in [
        ("id", (1, 1)),
        ("K(1)", (2, 2)),
        ("(fst o snd)", (3, 2)),
        ("if(~eq, C(fst, 1), id)", (7, 3)),
        ("CP(lt, 1)", (3, 2)),
        ("{1, 2}", (1, 1)),
    ] {
        assert_eq!(rt; counts(rt.alloc(), text)?, wanted, "{text}");
    }
    Ok(())
}

/// Whether the answer for a term with another part at a path is the text of a term, or the name of a refusal.
fn is_replacement(
    alloc: Global,
    t: &Term,
    at: &Path,
    new: &Term,
    wanted: &str,
) -> Result<bool, Memory> {
    match replace_at(alloc, t, at, new) {
        Ok(replaced) => {
            let replaced = boxed(alloc, replaced)?;
            is_printed(alloc, &replaced, wanted)
        }
        Err(PlaceFault::NoSuchPath) => Ok(wanted == "NoSuchPath"),
        Err(PlaceFault::WrongKind) => Ok(wanted == "WrongKind"),
        Err(PlaceFault::Memory) => Ok(false),
    }
}

fn is_replaced(
    alloc: Global,
    text: &str,
    at: &[u8],
    new: &str,
    wanted: &str,
) -> Result<bool, Broken> {
    let t = term(alloc, text)?;
    let at = path(alloc, at)?;
    let new = term(alloc, new)?;
    Ok(is_replacement(alloc, &t, &at, &new, wanted)?)
}

#[test]
fn parts_are_replaced(rt: HostRuntime) -> Result<(), Fail> {
    let shown: [(&str, &[u8], &str, &str); 18] = [
        ("(fst o snd)", &[], "id", "id"),
        ("(fst o snd)", &[2], "id", "(fst o id)"),
        ("(fst o snd)", &[2], "eq", "WrongKind"),
        ("(fst o snd)", &[3], "eq", "NoSuchPath"),
        ("(fst o snd)", &[0], "id", "NoSuchPath"),
        ("(fst o snd)", &[1, 1], "id", "NoSuchPath"),
        ("<(fst o snd), id>", &[1, 1], "id", "<(id o snd), id>"),
        ("K(1)", &[1], "{2, 3}", "K({2, 3})"),
        ("K(1)", &[1, 1], "2", "NoSuchPath"),
        ("C(fst, 1)", &[2], "2", "C(fst, 2)"),
        ("if(eq, fst, snd)", &[3], "id", "if(eq, fst, id)"),
        ("if(~eq, fst, snd)", &[1, 1], "lt", "if(~lt, fst, snd)"),
        (
            "iter((p & CP(lt, 1)), f)",
            &[1, 2, 2],
            "Persons",
            "iter((p & CP(lt, Persons)), f)",
        ),
        ("(eq @ id)", &[2], "fst", "(eq @ fst)"),
        (
            "inv((le | in))",
            &[1, 2],
            "KP(true)",
            "inv((le | KP(true)))",
        ),
        ("~ex(eq)", &[1, 1], "lt", "~ex(lt)"),
        ("1", &[], "true", "true"),
        ("1", &[], "id", "WrongKind"),
    ];
    for (text, at, new, wanted) in shown {
        assert!(rt;
            is_replaced(rt.alloc(), text, at, new, wanted)?,
            "{text} {wanted}"
        );
    }
    Ok(())
}

/// A part as a term of its own.
fn part_of(alloc: Global, part: SubTerm) -> Result<Box<Term>, Memory> {
    match part {
        SubTerm::F(f) => copied_fun(alloc, f),
        SubTerm::P(p) => copied_pred(alloc, p),
        SubTerm::C(c) => copied_const(alloc, c),
    }
}

/// Whether the part at a path is the text's, which is empty where there is none.
fn is_part(alloc: Global, text: &str, at: &[u8], wanted: &str) -> Result<bool, Broken> {
    let t = term(alloc, text)?;
    let at = path(alloc, at)?;
    match sub_at(&t, &at) {
        Some(part) => {
            let part = part_of(alloc, part)?;
            Ok(is_printed(alloc, &part, wanted)?)
        }
        None => Ok(wanted.is_empty()),
    }
}

#[test]
fn parts_at_paths(rt: HostRuntime) -> Result<(), Fail> {
    let shown: [(&str, &[u8], &str); 6] = [
        ("(fst o snd)", &[], "(fst o snd)"),
        ("(fst o snd)", &[1], "fst"),
        ("(fst o snd)", &[0], ""),
        ("if(~eq, K(1), snd)", &[1, 1], "eq"),
        ("if(~eq, K(1), snd)", &[2, 1], "1"),
        ("if(~eq, K(1), snd)", &[4], ""),
    ];
    for (text, at, wanted) in shown {
        assert!(rt; is_part(rt.alloc(), text, at, wanted)?, "{text} {wanted}");
    }
    Ok(())
}

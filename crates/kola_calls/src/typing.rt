//! The types of terms, their first faults, and the input types of their parts.

use crate::samples::{Broken, boxed, path, schema, term, variables};
use kola_canon::type_text;
use kola_core::{Memory, Path};
use kola_schema::Schema;
use kola_term::{
    Const, Fun, MetaCtx, MetaTy, Pred, Term, TypeFault, TypeWhy, const_type, input_at, out_type,
    out_type_without_limit, pred_ok, pred_ok_without_limit,
};
use kola_values::Ty;
use std::alloc::Global;
use std::test::Fail;

fn is_type(alloc: Global, t: &Ty, text: &str) -> Result<bool, Memory> {
    let found = type_text(alloc, t)?;
    Ok(found.as_slice() == text.as_bytes())
}

/// Whether a type is there and has the text; the empty text stands for none.
fn is_answer(alloc: Global, found: Option<&Ty>, text: &str) -> Result<bool, Memory> {
    match found {
        Some(t) => is_type(alloc, t, text),
        None => Ok(text.is_empty()),
    }
}

/// Whether a term has the output type at `unit` with the limit on types and without; a predicate has `bool`.
fn has_type(alloc: Global, schema: &Schema, t: &Term, text: &str) -> Result<bool, Memory> {
    let ctx = MetaCtx::new(alloc);
    match t {
        Term::F(f) => fun_has_type(alloc, schema, &ctx, f, text),
        Term::P(p) => pred_has_type(alloc, schema, &ctx, p, text),
        Term::C(c) => const_has_type(alloc, schema, &ctx, c, text),
    }
}

fn fun_has_type(
    alloc: Global,
    schema: &Schema,
    ctx: &MetaCtx,
    f: &Fun,
    text: &str,
) -> Result<bool, Memory> {
    let found = out_type_without_limit(alloc, schema, ctx, f, &Ty::Unit)?;
    let limited = out_type(alloc, schema, ctx, f, &Ty::Unit).ok();
    Ok(is_answer(alloc, found.as_ref(), text)? && is_answer(alloc, limited.as_ref(), text)?)
}

fn pred_has_type(
    alloc: Global,
    schema: &Schema,
    ctx: &MetaCtx,
    p: &Pred,
    text: &str,
) -> Result<bool, Memory> {
    let found = pred_ok_without_limit(alloc, schema, ctx, p, &Ty::Unit)?;
    let limited = pred_ok(alloc, schema, ctx, p, &Ty::Unit).is_ok();
    Ok(found == limited && found == (text == "bool"))
}

fn const_has_type(
    alloc: Global,
    schema: &Schema,
    ctx: &MetaCtx,
    c: &Const,
    text: &str,
) -> Result<bool, Memory> {
    let found = const_type(alloc, schema, ctx, c)?;
    is_answer(alloc, found.as_ref(), text)
}

fn is_typed(alloc: Global, text: &str, wanted: &str) -> Result<bool, Broken> {
    let schema = schema(alloc)?;
    let t = term(alloc, text)?;
    Ok(has_type(alloc, &schema, &t, wanted)?)
}

#[test]
fn output_types(rt: HostRuntime) -> Result<(), Fail> {
    for (text, wanted) in [
        ("id", "unit"),
        ("<K(1), <K(true), K(\"a\")>>", "(int, (bool, string))"),
        ("(fst o <K(1), K(true)>)", "int"),
        ("K({1, 2})", "set<int>"),
        (
            "(iter(KP(true), (.cars o snd)) o <id, K(Persons)>)",
            "set<set<Vehicle>>",
        ),
        (
            "(unnest(.ssn, .cars) o K(Persons))",
            "set<(string, Vehicle)>",
        ),
        ("(nest(fst, snd) o <K({1}), K({1})>)", ""),
        ("(nest(id, id) o <K({1}), K({1})>)", "set<(int, set<int>)>"),
        ("if((lt @ <K(1), K(2)>), K(1), K(3))", "int"),
        ("(eq @ <K(1), K(2)>)", "bool"),
        ("(CP(in, 1) @ K({1}))", "bool"),
        ("(eq @ <K(1), K(true)>)", ""),
        ("f", ""),
        ("p", ""),
        ("1", "int"),
        ("{\"a\"}", "set<string>"),
        ("Persons", "set<Person>"),
        ("Boats", ""),
        ("c", ""),
    ] {
        assert!(rt; is_typed(rt.alloc(), text, wanted)?, "{text}");
    }
    Ok(())
}

/// Whether a fault has this place and this cause.
fn is_fault(found: &TypeFault, place: &[u8], cause: TypeWhy) -> bool {
    match found {
        TypeFault::At { path, why } => path.as_slice() == place && *why == cause,
        TypeFault::Memory => false,
    }
}

/// Whether the fault is told at `unit`, and the call without limit has no type.
fn has_fault(
    alloc: Global,
    schema: &Schema,
    t: &Term,
    place: &[u8],
    cause: TypeWhy,
) -> Result<bool, Memory> {
    let ctx = MetaCtx::new(alloc);
    match t {
        Term::F(f) => fun_has_fault(alloc, schema, &ctx, f, place, cause),
        Term::P(p) => pred_has_fault(alloc, schema, &ctx, p, place, cause),
        Term::C(_) => Ok(false),
    }
}

fn fun_has_fault(
    alloc: Global,
    schema: &Schema,
    ctx: &MetaCtx,
    f: &Fun,
    place: &[u8],
    cause: TypeWhy,
) -> Result<bool, Memory> {
    if out_type_without_limit(alloc, schema, ctx, f, &Ty::Unit)?.is_some() {
        return Ok(false);
    }
    match out_type(alloc, schema, ctx, f, &Ty::Unit) {
        Ok(_) => Ok(false),
        Err(fault) => Ok(is_fault(&fault, place, cause)),
    }
}

fn pred_has_fault(
    alloc: Global,
    schema: &Schema,
    ctx: &MetaCtx,
    p: &Pred,
    place: &[u8],
    cause: TypeWhy,
) -> Result<bool, Memory> {
    if pred_ok_without_limit(alloc, schema, ctx, p, &Ty::Unit)? {
        return Ok(false);
    }
    match pred_ok(alloc, schema, ctx, p, &Ty::Unit) {
        Ok(()) => Ok(false),
        Err(fault) => Ok(is_fault(&fault, place, cause)),
    }
}

fn is_faulty(alloc: Global, text: &str, place: &[u8], cause: TypeWhy) -> Result<bool, Broken> {
    let schema = schema(alloc)?;
    let t = term(alloc, text)?;
    Ok(has_fault(alloc, &schema, &t, place, cause)?)
}

#[test]
fn first_faults(rt: HostRuntime) -> Result<(), Fail> {
    let shown: [(&str, &[u8], TypeWhy); 14] = [
        ("fst", &[], TypeWhy::NotThisInput),
        ("(fst o K(1))", &[1], TypeWhy::NotThisInput),
        ("(K(Boats) o fst)", &[2], TypeWhy::NotThisInput),
        (
            "(iterate((lt @ flat), fst) o K({1}))",
            &[1, 1, 2],
            TypeWhy::NotThisInput,
        ),
        (
            "(iterate(KP(true), .age) o K(Persons))",
            &[1, 2],
            TypeWhy::NoAttribute,
        ),
        ("C(flat, Boats)", &[2], TypeWhy::NoExtent),
        ("<id, f>", &[2], TypeWhy::WrongVariable),
        ("K(c)", &[1], TypeWhy::WrongVariable),
        ("if(KP(true), K(1), K(true))", &[], TypeWhy::OutputsDiffer),
        ("(unnest(id, id) o K({1}))", &[1], TypeWhy::OutputsDiffer),
        (
            "(nest(id, id) o <K({1}), K({true})>)",
            &[1],
            TypeWhy::OutputsDiffer,
        ),
        ("(p & eq)", &[1], TypeWhy::WrongVariable),
        ("CP(eq, Boats)", &[2], TypeWhy::NoExtent),
        ("ex(eq)", &[], TypeWhy::NotThisInput),
    ];
    for (text, place, cause) in shown {
        assert!(rt; is_faulty(rt.alloc(), text, place, cause)?, "{text}");
    }
    Ok(())
}

/// `<id, id>` after itself so many times, in a set of one: its type at `unit` has 2 to this number and one, less one, and one more.
fn doubled(alloc: Global, times: usize) -> Result<Vec<u8>, Memory> {
    let mut text = Vec::new(alloc);
    text.extend_from_slice(b"(iterate(KP(true), ")?;
    for _ in 0..times {
        text.extend_from_slice(b"(<id, id> o ")?;
    }
    text.extend_from_slice(b"id")?;
    for _ in 0..times {
        text.push(b')')?;
    }
    text.extend_from_slice(b") o K({1}))")?;
    Ok(text)
}

/// Whether such a term has a type with the limit, and without.
fn doubled_is_typed(alloc: Global, times: usize) -> Result<(bool, bool), Broken> {
    let vars = variables(alloc)?;
    let text = doubled(alloc, times)?;
    let term = kola_text::read_term(alloc, text.as_slice(), &vars)?;
    let term = boxed(alloc, term)?;
    let schema = schema(alloc)?;
    Ok(both_ways(alloc, &schema, &term)?)
}

fn both_ways(alloc: Global, schema: &Schema, t: &Term) -> Result<(bool, bool), Memory> {
    let ctx = MetaCtx::new(alloc);
    match t {
        Term::F(f) => {
            let limited = out_type(alloc, schema, &ctx, f, &Ty::Unit).is_ok();
            let unlimited = out_type_without_limit(alloc, schema, &ctx, f, &Ty::Unit)?.is_some();
            Ok((limited, unlimited))
        }
        _ => Ok((false, false)),
    }
}

#[test]
fn the_limit_on_types(rt: HostRuntime) -> Result<(), Fail> {
    assert_eq!(rt; doubled_is_typed(rt.alloc(), 11)?, (true, true));
    assert_eq!(rt; doubled_is_typed(rt.alloc(), 12)?, (false, true));
    Ok(())
}

/// Whether the input type of the part at a path is the text's; the empty text stands for a refusal, or a term with no type.
fn has_input(
    alloc: Global,
    schema: &Schema,
    t: &Term,
    at: &Path,
    wanted: &str,
) -> Result<bool, Memory> {
    let ctx = MetaCtx::new(alloc);
    let Term::F(f) = t else {
        return Ok(false);
    };
    if out_type_without_limit(alloc, schema, &ctx, f, &Ty::Unit)?.is_none() {
        return Ok(wanted.is_empty());
    }
    let found = input_at(alloc, schema, &ctx, t, &Ty::Unit, at).ok();
    is_answer(alloc, found.as_ref(), wanted)
}

fn is_input(alloc: Global, text: &str, at: &[u8], wanted: &str) -> Result<bool, Broken> {
    let schema = schema(alloc)?;
    let t = term(alloc, text)?;
    let at = path(alloc, at)?;
    Ok(has_input(alloc, &schema, &t, &at, wanted)?)
}

#[test]
fn input_types(rt: HostRuntime) -> Result<(), Fail> {
    let shown: [(&str, &[u8], &str); 9] = [
        ("(fst o <K(1), K(true)>)", &[], "unit"),
        ("(fst o <K(1), K(true)>)", &[1], "(int, bool)"),
        ("(fst o <K(1), K(true)>)", &[2, 1], "unit"),
        ("(fst o <K(1), K(true)>)", &[3], ""),
        ("(fst o <K(1), K(true)>)", &[2, 1, 1], ""),
        (
            "(iterate(ex(eq), snd) o (join(KP(true), id) o <K({1}), <K({1}), K({1})>>))",
            &[1],
            "",
        ),
        (
            "(iterate((eq @ <id, id>), id) o K({1}))",
            &[1, 1, 1],
            "(int, int)",
        ),
        ("(C(<snd, fst>, 1) o K(true))", &[1, 1], "(int, bool)"),
        (
            "(if((inv(in) @ <K({1}), id>), id, id) o K(1))",
            &[1, 1, 1, 1],
            "(int, set<int>)",
        ),
    ];
    for (text, at, wanted) in shown {
        assert!(rt; is_input(rt.alloc(), text, at, wanted)?, "{text} {wanted}");
    }
    Ok(())
}

/// Whether two say the same of a variable.
fn say_the_same(one: &MetaTy, other: &MetaTy) -> bool {
    match (one, other) {
        (MetaTy::Fun(t, u), MetaTy::Fun(v, w)) => t.is(v) && u.is(w),
        (MetaTy::Pred(t), MetaTy::Pred(u)) | (MetaTy::Const(t), MetaTy::Const(u)) => t.is(u),
        _ => false,
    }
}

/// Whether the copy of what a context says of a variable says the same.
fn is_copied(alloc: Global, meta: &MetaTy) -> Result<bool, Memory> {
    let copy = boxed(alloc, meta.copy()?)?;
    Ok(say_the_same(meta, &copy))
}

fn are_copied(alloc: Global, vars: &MetaCtx) -> Result<bool, Memory> {
    for (_, meta) in vars.as_slice() {
        if !is_copied(alloc, meta)? {
            return Ok(false);
        }
    }
    Ok(true)
}

#[test]
fn what_is_said_of_variables_is_copied(rt: HostRuntime) -> Result<(), Fail> {
    let vars = variables(rt.alloc())?;
    assert_eq!(rt; vars.len(), 3);
    assert!(rt; are_copied(rt.alloc(), &vars)?);
    Ok(())
}

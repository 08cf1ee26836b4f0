//! Texts of queries, read, copied and printed.

use crate::samples::{Broken, boxed};
use kola_core::{Items, Name, Text};
use oql_print::print_query;
use oql_syntax::{QueryFault, QueryWhy, read_query};
use oql_tree::{BoxedExpr, Chain, Expr, Form, Lit, NamedExprs, Query, SetChain, Sign};
use std::alloc::Global;
use std::test::Fail;

impl From<QueryFault> for Broken {
    fn from(_e: QueryFault) -> Broken {
        Broken::Refused
    }
}

/// The query of a text.
pub(crate) fn query(alloc: Global, text: &[u8]) -> Result<Box<Query>, Broken> {
    let query = read_query(alloc, text)?;
    Ok(boxed(alloc, query)?)
}

/// Whether a query is printed so.
pub(crate) fn is_printed(alloc: Global, query: &Query, spelling: &[u8]) -> Result<bool, Broken> {
    let printed = print_query(alloc, query)?;
    Ok(printed.as_slice() == spelling)
}

/// Whether a text's query, and its copy, are printed so.
fn is_read(alloc: Global, text: &[u8], spelling: &[u8]) -> Result<bool, Broken> {
    let read = query(alloc, text)?;
    let copy = boxed(alloc, read.copy(alloc)?)?;
    Ok(is_printed(alloc, &read, spelling)? && is_printed(alloc, &copy, spelling)?)
}

/// Texts, and their queries in the canonical spelling.
const SPELLINGS: [(&str, &str); 24] = [
    (
        "SELECT Distinct x FROM A as x ;",
        "select distinct x from x in A",
    ),
    (
        "select distinct x.a->b from A as x,y in B where(x=y)",
        "select distinct x.a.b from x in A, y in B where x = y",
    ),
    ("((a)) or (b and c) or d", "a or b and c or d"),
    ("(a or b) or c", "(a or b) or c"),
    ("not(a or b)and c", "not (a or b) and c"),
    ("not (not a = b)", "not not a = b"),
    ("(not a) = b", "(not a) = b"),
    ("a and (exists x in b : c)", "a and exists x in b : c"),
    ("(exists x in b : c) and a", "(exists x in b : c) and a"),
    ("not (for all x in b : c)", "not for all x in b : c"),
    (
        "not (exists x in b : c) and a",
        "not (exists x in b : c) and a",
    ),
    ("(exists x in b : c) = d", "(exists x in b : c) = d"),
    (
        "exists x in (a = b) : (c or d)",
        "exists x in (a = b) : c or d",
    ),
    ("exists x in (a union b) : c", "exists x in a union b : c"),
    ("(a union b) except c", "(a union b) except c"),
    ("a union (b intersect c)", "a union b intersect c"),
    ("(a union b) intersect c", "(a union b) intersect c"),
    ("(a.b).c", "(a.b).c"),
    ("(a<b)>=(c)", "(a < b) >= c"),
    (
        "a != set(1,\"x\\ty\",TRUE,-007)",
        "a != set(1, \"x\\ty\", true, -7)",
    ),
    (
        "struct(select:(select distinct x from x in A),b:flatten((c)))",
        "struct(select: select distinct x from x in A, b: flatten(c))",
    ),
    ("exists(A except(B))", "exists(A except B)"),
    (
        "(select distinct x from x in A).b",
        "(select distinct x from x in A).b",
    ),
    (
        "x in(select distinct y from y in(select distinct z from z in B))",
        "x in (select distinct y from y in (select distinct z from z in B))",
    ),
];

#[test]
fn texts_are_printed_in_one_spelling(rt: HostRuntime) -> Result<(), Fail> {
    for (text, spelling) in SPELLINGS {
        assert!(rt;
            is_read(rt.alloc(), text.as_bytes(), spelling.as_bytes())?,
            "{text}"
        );
        assert!(rt;
            is_read(rt.alloc(), spelling.as_bytes(), spelling.as_bytes())?,
            "{spelling}"
        );
    }
    Ok(())
}

// ---- faults

/// The word that a cause names, or the empty word.
fn word_of(why: &QueryWhy) -> &str {
    match why {
        QueryWhy::NotInProfile { word } => word.as_text(),
        _ => "",
    }
}

/// Whether a text is refused at the place for the cause of that name, which names the word.
fn is_refused(
    alloc: Global,
    text: &[u8],
    place: usize,
    cause: &str,
    word: &str,
) -> Result<bool, Broken> {
    match read_query(alloc, text) {
        Ok(_) => Ok(false),
        Err(QueryFault::Memory) => Err(Broken::Memory),
        Err(QueryFault::At { at, why }) => {
            Ok(at == place && why.name() == cause && word_of(&why) == word)
        }
    }
}

/// Texts, each with the place of its first fault, the name of the cause, and the word that it names.
const FAULTS: [(&str, usize, &str, &str); 24] = [
    ("", 0, "Unexpected", ""),
    ("a b", 2, "Unexpected", ""),
    ("(a", 2, "Unexpected", ""),
    ("a = b = c", 6, "Unexpected", ""),
    ("set()", 4, "Unexpected", ""),
    ("set(a)", 4, "Unexpected", ""),
    ("not", 3, "Unexpected", ""),
    ("exists x : a", 9, "Unexpected", ""),
    ("for x in A : x", 4, "Unexpected", ""),
    ("exists x in A : b) and c", 17, "Unexpected", ""),
    ("a = exists x in A : b", 11, "Unexpected", ""),
    ("select distinct x from A", 24, "Unexpected", ""),
    ("select distinct x from x in A or b", 30, "Unexpected", ""),
    ("a or select distinct x from x in A", 5, "Unexpected", ""),
    ("struct(select 5", 14, "Unexpected", ""),
    ("x.select y", 9, "Unexpected", ""),
    ("select", 6, "NotInProfile", "select"),
    ("SELECT Count(x)", 7, "NotInProfile", "select"),
    ("select distinct Count(x)", 16, "NotInProfile", "Count"),
    ("a order by b", 2, "NotInProfile", "order"),
    (
        "struct(a: select distinct x from x in set(1), first 2)",
        52,
        "Unexpected",
        "",
    ),
    ("a = #", 4, "BadByte", ""),
    ("a = \"b", 4, "OpenString", ""),
    ("set(9223372036854775808)", 4, "NumberTooLarge", ""),
];

#[test]
fn texts_are_refused_at_their_first_fault(rt: HostRuntime) -> Result<(), Fail> {
    for (text, at, cause, word) in FAULTS {
        assert!(rt;
            is_refused(rt.alloc(), text.as_bytes(), at, cause, word)?,
            "{text}"
        );
    }
    Ok(())
}

/// Queries of which each front is read, or refused no later than at its end.
const WHOLE: [&str; 6] = [
    "select distinct struct(l: v1, r: select distinct v2.r from v2 in (select distinct struct(l: v1, r: v2) \
from v1 in Vehicles, v2 in Persons where v1 in v2.cars) where v2.l = v1) from v1 in Vehicles",
    "select distinct struct(v: v, owners: (select distinct p from p in Persons where v in p.cars)) from v in Vehicles",
    "(exists a in Vehicles : exists b in Vehicles : for all c in Persons : c.year < 0) and false",
    "for all x in Vehicles except Vehicles : x.year < 0",
    "select distinct x from x in set(3, \"b\\n\", 2, true) where not x < -3 or exists(A intersect B)",
    "struct(a: select distinct x from x in A, set(1) as y, first: flatten(b->c));",
];

fn is_read_or_refused_within(alloc: Global, text: &[u8]) -> Result<bool, Broken> {
    match read_query(alloc, text) {
        Ok(_) => Ok(true),
        Err(QueryFault::Memory) => Err(Broken::Memory),
        Err(QueryFault::At { at, .. }) => Ok(at <= text.len()),
    }
}

fn fronts_are_read_or_refused(alloc: Global, text: &[u8]) -> Result<bool, Broken> {
    let mut all = true;
    for count in 0..text.len() {
        let front = text.get(..count).unwrap_or(text);
        all = is_read_or_refused_within(alloc, front)? && all;
    }
    Ok(all)
}

#[test]
fn each_front_is_read_or_refused_within_it(rt: HostRuntime) -> Result<(), Fail> {
    for text in WHOLE {
        assert!(rt; query(rt.alloc(), text.as_bytes()).is_ok(), "{text}");
        assert!(rt;
            fronts_are_read_or_refused(rt.alloc(), text.as_bytes())?,
            "{text}"
        );
    }
    Ok(())
}

// ---- limits

fn push_often(text: &mut Vec<u8>, part: &str, count: usize) -> Result<(), Broken> {
    for _ in 0..count {
        text.extend_from_slice(part.as_bytes())?;
    }
    Ok(())
}

/// So many times the first part, then the second, and so many times the third.
fn nested(
    alloc: Global,
    open: &str,
    inner: &str,
    close: &str,
    count: usize,
) -> Result<Vec<u8>, Broken> {
    let mut text = Vec::new(alloc);
    push_often(&mut text, open, count)?;
    push_often(&mut text, inner, 1)?;
    push_often(&mut text, close, count)?;
    Ok(text)
}

/// Whether 100 levels of a construct are read, and the 101st is refused where it begins.
fn holds_a_hundred(alloc: Global, open: &str, inner: &str, close: &str) -> Result<bool, Broken> {
    let most = nested(alloc, open, inner, close, 100)?;
    let more = nested(alloc, open, inner, close, 101)?;
    let place = open.len().saturating_mul(100);
    Ok(
        query(alloc, most.as_slice()).is_ok()
            && is_refused(alloc, more.as_slice(), place, "TooDeep", "")?,
    )
}

#[test]
fn a_hundred_levels_may_stand_below_a_query(rt: HostRuntime) -> Result<(), Fail> {
    for (open, inner, close) in [
        ("(", "x", ")"),
        ("not ", "x", ""),
        ("flatten(", "x", ")"),
        ("exists(", "x", ")"),
        ("struct(a: ", "x", ")"),
        ("exists x in A : ", "x", ""),
        ("for all x in A : ", "x", ""),
        ("select distinct ", "x", " from x in A"),
    ] {
        assert!(rt; holds_a_hundred(rt.alloc(), open, inner, close)?, "{open}");
    }
    Ok(())
}

/// Whether a chain of 100 operators is read, and the 101st is refused.
fn links_a_hundred(alloc: Global, link: &str) -> Result<bool, Broken> {
    let most = nested(alloc, "", "x", link, 100)?;
    let more = nested(alloc, "", "x", link, 101)?;
    let blanks = if link.starts_with(' ') { 1 } else { 0 };
    let place = link.len().saturating_mul(100).saturating_add(1 + blanks);
    Ok(
        query(alloc, most.as_slice()).is_ok()
            && is_refused(alloc, more.as_slice(), place, "TooDeep", "")?,
    )
}

#[test]
fn a_chain_has_at_most_a_hundred_operators(rt: HostRuntime) -> Result<(), Fail> {
    for link in [
        " or x",
        " and x",
        " union x",
        " except x",
        " intersect x",
        ".a",
        "->a",
    ] {
        assert!(rt; links_a_hundred(rt.alloc(), link)?, "{link}");
    }
    Ok(())
}

#[test]
fn a_struct_may_have_a_thousand_labels(rt: HostRuntime) -> Result<(), Fail> {
    let text = nested(rt.alloc(), "", "struct(a: 1", ", b: x", 1000)?;
    assert!(rt; is_refused(rt.alloc(), text.as_slice(), 6011, "Unexpected", "")?);
    let mut text = text;
    push_often(&mut text, ")", 1)?;
    assert!(rt; is_read(rt.alloc(), text.as_slice(), text.as_slice())?);
    Ok(())
}

// ---- queries made of their parts

fn named(alloc: Global, name: &str) -> Result<BoxedExpr, Broken> {
    let name = Name::from_text(alloc, name)?;
    Ok(BoxedExpr::new(
        alloc,
        Expr {
            at: 0,
            form: Form::Name(name),
        },
    )?)
}

fn in_box(alloc: Global, form: Form) -> Result<BoxedExpr, Broken> {
    Ok(BoxedExpr::new(alloc, Expr { at: 0, form })?)
}

/// `a except "s"`
fn made_sets(alloc: Global) -> Result<BoxedExpr, Broken> {
    let text = Text::from_text(alloc, "s")?;
    let s = in_box(alloc, Form::Literal(Lit::Str(text)))?;
    let mut links = SetChain::new(alloc);
    links.push(0, true, s)?;
    let a = named(alloc, "a")?;
    in_box(alloc, Form::UnionExcept(a, links))
}

/// `b or c = d`
fn made_condition(alloc: Global) -> Result<BoxedExpr, Broken> {
    let c = named(alloc, "c")?;
    let d = named(alloc, "d")?;
    let compared = in_box(alloc, Form::Compare(Sign::Eq, c, d))?;
    let mut links = Chain::new(alloc);
    links.push(0, compared)?;
    let b = named(alloc, "b")?;
    in_box(alloc, Form::Or(b, links))
}

/// `set(1, true)`
fn made_head(alloc: Global) -> Result<BoxedExpr, Broken> {
    let mut literals = Items::new(alloc);
    literals.push((Lit::Int(1), 0))?;
    literals.push((Lit::Bool(true), 0))?;
    in_box(alloc, Form::SetOf(literals))
}

/// A select of the three.
fn made(alloc: Global) -> Result<BoxedExpr, Broken> {
    let mut ranges = NamedExprs::new(alloc);
    ranges.push(Name::from_text(alloc, "x")?, 0, made_sets(alloc)?)?;
    let head = made_head(alloc)?;
    let condition = made_condition(alloc)?;
    in_box(alloc, Form::Select(head, ranges, Some((0, condition))))
}

#[test]
fn a_query_is_made_of_its_parts(rt: HostRuntime) -> Result<(), Fail> {
    let query = made(rt.alloc())?;
    let spelling = "select distinct set(1, true) from x in a except \"s\" where b or c = d";
    assert!(rt; is_printed(rt.alloc(), query.get(), spelling.as_bytes())?);
    Ok(())
}

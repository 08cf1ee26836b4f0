//! Texts of terms and patterns, read and printed.

use crate::samples::{Broken, boxed, is_printed, term, variables};
use kola_base::{LexWhy, tokens};
use kola_core::{Items, Memory};
use kola_term::Term;
use kola_text::{TextFault, TextWhy, read_pattern_part, read_term, read_term_part};
use std::alloc::Global;
use std::test::Fail;

/// Whether a text is read as the term that is printed so.
fn is_read(alloc: Global, text: &str, spelling: &str) -> Result<bool, Broken> {
    let t = term(alloc, text)?;
    Ok(is_printed(alloc, &t, spelling)?)
}

#[test]
fn texts_are_printed_in_one_spelling(rt: HostRuntime) -> Result<(), Fail> {
    for (text, spelling) in [
        (
            "(iter( KP( true ) ,snd )o<id,K({2,1,2})>)",
            "(iter(KP(true), snd) o <id, K({1, 2})>)",
        ),
        (
            "if(~eq,(f*.o),C(fst,\"a\\\"\"))// end",
            "if(~eq, (f * .o), C(fst, \"a\\\"\"))",
        ),
        ("((p@f)|inv(CP(lt,c)))", "((p @ f) | inv(CP(lt, c)))"),
        ("c", "c"),
        ("Persons", "Persons"),
        ("{\"b\",\"a\"}", "{\"a\", \"b\"}"),
        ("-007", "-7"),
    ] {
        assert!(rt; is_read(rt.alloc(), text, spelling)?, "{text}");
    }
    Ok(())
}

/// The first fault of a text.
fn refusal(alloc: Global, text: &[u8]) -> Result<Option<TextFault>, Memory> {
    let vars = variables(alloc)?;
    Ok(read_term(alloc, text, &vars).err())
}

#[test]
fn texts_are_refused_at_their_first_fault(rt: HostRuntime) -> Result<(), Fail> {
    for (text, at, why) in [
        ("(id o)", 5, TextWhy::Unexpected),
        ("<id, fst", 8, TextWhy::Unexpected),
        ("(eq o id)", 4, TextWhy::Unexpected),
        ("id fst", 3, TextWhy::Unexpected),
        ("<fst, snd>= id", 9, TextWhy::Unexpected),
        ("K({1, true})", 6, TextWhy::Unexpected),
        ("(p o f)", 3, TextWhy::Unexpected),
        ("union(", 5, TextWhy::Unexpected),
        ("rule", 0, TextWhy::Unexpected),
        ("", 0, TextWhy::Unexpected),
        ("K(\"a", 2, TextWhy::Lex(LexWhy::OpenString)),
        (
            "K(9223372036854775808)",
            2,
            TextWhy::Lex(LexWhy::NumberTooLarge),
        ),
    ] {
        let found = refusal(rt.alloc(), text.as_bytes())?;
        assert_eq!(rt; found, Some(TextFault::At { at, why }), "{text}");
    }
    Ok(())
}

/// So many signs of a negation, and then `eq`.
fn negations(alloc: Global, count: usize) -> Result<Vec<u8>, Memory> {
    let mut text = Vec::new(alloc);
    for _ in 0..count {
        text.push(b'~')?;
    }
    text.extend_from_slice(b"eq")?;
    Ok(text)
}

fn refusal_of_negations(alloc: Global, count: usize) -> Result<Option<TextFault>, Memory> {
    let text = negations(alloc, count)?;
    refusal(alloc, text.as_slice())
}

#[test]
fn terms_are_at_most_256_deep(rt: HostRuntime) -> Result<(), Fail> {
    assert_eq!(rt; refusal_of_negations(rt.alloc(), 255)?, None);
    let fault = TextFault::At {
        at: 255,
        why: TextWhy::TooDeep,
    };
    assert_eq!(rt; refusal_of_negations(rt.alloc(), 256)?, Some(fault));
    Ok(())
}

/// The term that is read from a token of a text on, and the number of the token behind it; `pattern` says whether it is a pattern.
fn part_of(
    alloc: Global,
    text: &str,
    from: usize,
    pattern: bool,
) -> Result<Option<(Box<Term>, usize)>, Broken> {
    let vars = Items::new(alloc);
    let Ok(toks) = tokens(alloc, text.as_bytes()) else {
        return Ok(None);
    };
    if from >= toks.len() {
        return Ok(None);
    }
    let (term, next) = if pattern {
        read_pattern_part(alloc, text.as_bytes(), toks.as_slice(), from)?
    } else {
        read_term_part(alloc, text.as_bytes(), toks.as_slice(), from, &vars)?
    };
    let term = boxed(alloc, term)?;
    Ok(Some((term, next)))
}

fn is_part(
    alloc: Global,
    text: &str,
    from: usize,
    pattern: bool,
    spelling: &str,
    behind: usize,
) -> Result<bool, Broken> {
    match part_of(alloc, text, from, pattern)? {
        Some((term, next)) => Ok(is_printed(alloc, &term, spelling)? && next == behind),
        None => Ok(false),
    }
}

#[test]
fn parts_are_read_up_to_the_token_behind(rt: HostRuntime) -> Result<(), Fail> {
    for (text, from, pattern, spelling, behind) in [
        ("proof (id o fst) = id", 1, false, "(id o fst)", 6),
        ("= ~eq", 1, false, "~eq", 3),
        ("GIVEN (F o<id,X>) DO", 1, true, "(F o <id, X>)", 10),
        ("(P&Q)", 0, true, "(P & Q)", 5),
    ] {
        assert!(rt;
            is_part(rt.alloc(), text, from, pattern, spelling, behind)?,
            "{text}"
        );
    }
    Ok(())
}

//! Texts of rules with their proofs, and their faults.

use crate::samples::{Broken, boxed, is_printed};
use coko_text::read_rules;
use kola_base::TextFault;
use kola_canon::type_text;
use kola_core::Memory;
use kola_rule::{Draft, Rule, Step};
use std::alloc::Global;
use std::test::Fail;

/// The last rule of a text with its proof; none where the text has no rule.
pub(crate) fn last_draft(alloc: Global, text: &str) -> Result<Option<Box<Draft>>, Broken> {
    let file = read_rules(alloc, text.as_bytes())?;
    let mut drafts = file.drafts.into_vec();
    match drafts.pop() {
        Some(draft) => Ok(Some(boxed(alloc, draft)?)),
        None => Ok(None),
    }
}

const PUSH: &str = "rule first (c: set int) at unit: K(c) = K(c) proof K(c) qed
rule push (p: pred a, q: pred a, f: a -> set (int, Person)) at set a when inj(f), inj(f):
  (iterate(p, id) o iterate(q, id)) = iterate((q & p), id)
proof
  (iterate(p, id) o iterate(q, id))
  = iterate((q & (p @ id)), (id o id)) by iterate_iterate at here
  = iterate((q & p), id) by rev id_left at 1.2.3
qed";

/// Whether a rule has the head and the sides of `push`.
fn is_push(alloc: Global, rule: &Rule) -> Result<bool, Memory> {
    let headed = rule.name.as_text() == "push" && rule.vars.len() == 3 && rule.when.len() == 2;
    Ok(
        headed
            && type_text(alloc, &rule.input)?.as_slice() == b"set<a>".as_slice()
            && is_printed(alloc, &rule.left, "(iterate(p, id) o iterate(q, id))")?
            && is_printed(alloc, &rule.right, "iterate((q & p), id)")?,
    )
}

/// Whether a step takes the law in the direction at the path.
fn is_step(step: &Step, law: &str, rev: bool, path: &[u8]) -> bool {
    step.law.as_text() == law && step.rev == rev && step.path.as_slice() == path
}

/// Whether the steps are those of `push`.
fn are_steps(alloc: Global, steps: &[Step]) -> Result<bool, Memory> {
    match steps {
        [first, second] => Ok(
            is_step(first, "iterate_iterate", false, &[])
                && is_step(second, "id_left", true, &[1, 2, 3])
                && is_printed(alloc, &first.term, "iterate((q & (p @ id)), (id o id))")?
                && is_printed(alloc, &second.term, "iterate((q & p), id)")?,
        ),
        _ => Ok(false),
    }
}

fn is_draft(alloc: Global, draft: &Draft) -> Result<bool, Memory> {
    Ok(
        is_push(alloc, &draft.rule)?
            && is_printed(alloc, &draft.first, "(iterate(p, id) o iterate(q, id))")?
            && are_steps(alloc, draft.steps.as_slice())?,
    )
}

fn reads_push(alloc: Global) -> Result<bool, Broken> {
    match last_draft(alloc, PUSH)? {
        Some(draft) => Ok(is_draft(alloc, &draft)?),
        None => Ok(false),
    }
}

#[test]
fn a_rule_is_read_with_its_proof(rt: HostRuntime) -> Result<(), Fail> {
    assert!(rt; reads_push(rt.alloc())?);
    assert!(rt; last_draft(rt.alloc(), " // no rule\n")?.is_none());
    Ok(())
}

/// The place and the name of the cause of a text's fault; the empty name stands for none.
fn fault_of(alloc: Global, text: &str) -> (usize, &'static str) {
    match read_rules(alloc, text.as_bytes()) {
        Ok(_) => (0, ""),
        Err(TextFault::At { at, why }) => (at, why.name()),
        Err(TextFault::Memory) => (0, "Memory"),
    }
}

/// Texts with the place and the cause of their first fault.
const FAULTS: [(&str, usize, &str); 12] = [
    ("rule r () at int: f = f proof f qed", 18, "Unexpected"),
    ("rule r () at int: id = id", 25, "Unexpected"),
    ("rule r () at int: id = id proof id", 34, "Unexpected"),
    (
        "rule r () at Int: id = id proof id qed qed",
        39,
        "Unexpected",
    ),
    ("rule rule () at int: id = id proof id qed", 5, "Unexpected"),
    (
        "rule r (f: a -> b at a: f = f proof f qed",
        18,
        "Unexpected",
    ),
    (
        "rule r () at int when inj(): id = id proof id qed",
        26,
        "Unexpected",
    ),
    (
        "rule r () at int: id = id proof id = id by l at 1.4 qed",
        50,
        "Unexpected",
    ),
    (
        "rule r () at int: id = id proof id = id by rev rev at here qed",
        47,
        "Unexpected",
    ),
    (
        "rule r () at int: K(\"a) = id proof id qed",
        20,
        "OpenString",
    ),
    (
        "rule r () at int: K(9223372036854775808) = id",
        20,
        "NumberTooLarge",
    ),
    ("block b { SKIP }", 0, "Unexpected"),
];

#[test]
fn texts_of_rules_have_faults(rt: HostRuntime) -> Result<(), Fail> {
    for (text, at, cause) in FAULTS {
        assert_eq!(rt; fault_of(rt.alloc(), text), (at, cause), "{text}");
    }
    Ok(())
}

/// A rule whose left side is so many `~` before `eq`.
fn nested(alloc: Global, count: usize) -> Result<String, Memory> {
    let mut signs = String::new(alloc);
    for _ in 0..count {
        signs.push_str("~")?;
    }
    format!(in alloc; "rule r () at (int, int): {signs}eq = eq proof eq qed")
}

fn nested_fault(alloc: Global, count: usize) -> Result<(usize, &'static str), Memory> {
    let text = nested(alloc, count)?;
    Ok(fault_of(alloc, text.as_str()))
}

#[test]
fn a_side_is_at_most_256_deep(rt: HostRuntime) -> Result<(), Fail> {
    assert_eq!(rt; nested_fault(rt.alloc(), 255)?, (0, ""));
    assert_eq!(rt; nested_fault(rt.alloc(), 256)?, (280, "TooDeep"));
    Ok(())
}

//! The text of plans.

ghost use Rattle.std.specs.Prelude.{◌≡◌, [], ◌++◌, codes, decimal, map, slice_get, IfOk, OnOk};
ghost use Rattle.kola_term.specs.TermView.{term_tree};
ghost use Rattle.kola_rule.specs.RuleViews.{rule_tree};
ghost use Rattle.kola_text.specs.Spelling.{term_spelling};
ghost use Rattle.coko_plan.specs.Entries.{EFire, EGiven};
ghost use Rattle.coko_plan.specs.EntryViews.{entry_tree, entries_of, start_of};
ghost use Rattle.coko_plan.specs.Faults.{names_of_rules};
ghost use Rattle.coko_plan.specs.Listing.{or_else};
ghost use Rattle.coko_plan.specs.Plans.{PlanFor};
ghost use Rattle.coko_plan.specs.Spelling.{further_children, path_spelling, arm_spelling, further_arms, arms_spelling};
ghost use Rattle.coko_plan.specs.Spelling.{two_spelling, entry_spelling, lines_from, plan_spelling};

use crate::entry::{Entry, PlanArms};
use crate::plan::Plan;
use kola_canon::{push_bytes, push_number};
use kola_core::{Memory, Path};
use kola_rule::RuleTable;
use kola_term::Term;
use kola_text::print_term;
use std::alloc::Global;

/// Adds a word and a number behind it.
fn push_one(out: &mut Vec<u8>, word: &[u8], n: usize) -> Result<(), Memory>
    ensures { OnOk result (out.new.items ≡ out.old.items ++ (word.now ++ decimal n)) }
{
    push_bytes(out, word)?;
    push_number(out, n as u64)
}

/// Adds a word and two numbers behind it.
fn push_two(out: &mut Vec<u8>, word: &[u8], i: usize, j: usize) -> Result<(), Memory>
    ensures { OnOk result (out.new.items ≡ out.old.items ++ (word.now ++ two_spelling i j)) }
{
    push_one(out, word, i)?;
    push_one(out, b" ", j)
}

/// Adds the children of a path behind the first one.
fn push_children(out: &mut Vec<u8>, path: &[u8]) -> Result<(), Memory>
    ensures { OnOk result (out.new.items ≡ out.old.items ++ further_children path.now) }
{
    for n in path {
        push_one(out, b".", *n as usize)?;
    }
    Ok(())
}

fn push_path(out: &mut Vec<u8>, path: &[u8]) -> Result<(), Memory>
    ensures { OnOk result (out.new.items ≡ out.old.items ++ path_spelling path.now) }
{
    match path.split_first() {
        Some((first, others)) => {
            push_one(out, b"", *first as usize)?;
            push_children(out, others)
        }
        None => push_bytes(out, b"here"),
    }
}

fn push_arm(out: &mut Vec<u8>, arm: &(Path, usize)) -> Result<(), Memory>
    ensures { OnOk result (out.new.items ≡ out.old.items ++ arm_spelling arm.now) }
{
    push_path(out, arm.0.as_slice())?;
    push_one(out, b": ", arm.1)
}

/// Adds the arms behind the first one.
fn push_further(out: &mut Vec<u8>, arms: &[(Path, usize)]) -> Result<(), Memory>
    ensures { OnOk result (out.new.items ≡ out.old.items ++ further_arms arms.now) }
{
    for arm in arms {
        push_bytes(out, b", ")?;
        push_arm(out, arm)?;
    }
    Ok(())
}

fn push_arms(out: &mut Vec<u8>, arms: &[(Path, usize)]) -> Result<(), Memory>
    ensures { OnOk result (out.new.items ≡ out.old.items ++ arms_spelling arms.now) }
{
    match arms.split_first() {
        Some((first, others)) => {
            push_arm(out, first)?;
            push_further(out, others)
        }
        None => Ok(()),
    }
}

/// Adds the name of the rule at a place; nothing past the last rule.
fn push_rule(out: &mut Vec<u8>, rules: &RuleTable, rule: usize) -> Result<(), Memory>
    ensures { OnOk result (out.new.items
        ≡ out.old.items ++ or_else (slice_get (names_of_rules (map rule_tree rules.now)) rule) []) }
{
    match rules.get(rule) {
        Some(rule) => push_bytes(out, rule.name.as_text().as_bytes()),
        None => Ok(()),
    }
}

fn push_fire(out: &mut Vec<u8>, rules: &RuleTable, rule: usize, rev: bool) -> Result<(), Memory>
    ensures { OnOk result (out.new.items
        ≡ out.old.items ++ entry_spelling (names_of_rules (map rule_tree rules.now)) (EFire rule rev)) }
{
    if rev {
        push_bytes(out, b"FIRE rev ")?;
    } else {
        push_bytes(out, b"FIRE ")?;
    }
    push_rule(out, rules, rule)
}

fn push_given(
    alloc: Global,
    out: &mut Vec<u8>,
    pattern: &Term,
    arms: &PlanArms,
) -> Result<(), Memory>
    ensures { OnOk result (out.new.items ≡ out.old.items
        ++ (codes "GIVEN " ++ term_spelling (term_tree pattern.now) ++ codes " DO " ++ arms_spelling arms.now ++ codes " END")) }
{
    let text = print_term(alloc, pattern)?;
    push_bytes(out, b"GIVEN ")?;
    push_bytes(out, text.as_slice())?;
    push_bytes(out, b" DO ")?;
    push_arms(out, arms.as_slice())?;
    push_bytes(out, b" END")
}

fn push_entry(
    alloc: Global,
    out: &mut Vec<u8>,
    rules: &RuleTable,
    entry: &Entry,
) -> Result<(), Memory>
    ensures { OnOk result (out.new.items
        ≡ out.old.items ++ entry_spelling (names_of_rules (map rule_tree rules.now)) (entry_tree entry.now)) }
{
    match entry {
        Entry::Fire(rule, rev) => push_fire(out, rules, *rule, *rev),
        Entry::Skip => push_bytes(out, b"SKIP"),
        Entry::Fail => push_bytes(out, b"FAIL"),
        Entry::Seq(i, j) => push_two(out, b"SEQ ", *i, *j),
        Entry::Then(i, j) => push_two(out, b"THEN ", *i, *j),
        Entry::Else(i, j) => push_two(out, b"ELSE ", *i, *j),
        Entry::Bu(i) => push_one(out, b"BU ", *i),
        Entry::Td(i) => push_one(out, b"TD ", *i),
        Entry::Repeat(i) => push_one(out, b"REPEAT ", *i),
        Entry::Given(pattern, arms) => push_given(alloc, out, pattern, arms),
    }
}

/// Adds the line of an entry of a number.
fn push_line(
    alloc: Global,
    out: &mut Vec<u8>,
    rules: &RuleTable,
    n: usize,
    entry: &Entry,
) -> Result<(), Memory>
    ensures { OnOk result (out.new.items ≡ out.old.items ++ (decimal n ++ codes ": "
        ++ entry_spelling (names_of_rules (map rule_tree rules.now)) (entry_tree entry.now) ++ codes "\n")) }
{
    push_one(out, b"", n)?;
    push_bytes(out, b": ")?;
    push_entry(alloc, out, rules, entry)?;
    push_bytes(out, b"\n")
}

/// Adds the lines of all entries.
fn push_lines(
    alloc: Global,
    out: &mut Vec<u8>,
    plan: &Plan,
    rules: &RuleTable,
) -> Result<(), Memory>
    ensures { OnOk result (out.new.items
        ≡ out.old.items ++ lines_from 0 (names_of_rules (map rule_tree rules.now)) (entries_of plan.now)) }
{
    for n in 0..plan.len() {
        match plan.entry(n) {
            Some(entry) => push_line(alloc, out, rules, n, entry)?,
            None => return Ok(()),
        }
    }
    Ok(())
}

/// The lines of a plan: `I: ENTRY` for each entry, with the names of the rules in the table, and `start: I`.
pub fn plan_text(alloc: Global, plan: &Plan, rules: &RuleTable) -> Result<Vec<u8>, Memory>
    requires { PlanFor (entries_of plan.now) (start_of plan.now) (map rule_tree rules.now) }
    ensures { IfOk result (λ text. text.items
        ≡ plan_spelling (names_of_rules (map rule_tree rules.now)) (entries_of plan.now) (start_of plan.now)) }
{
    let mut out = Vec::new(alloc);
    push_lines(alloc, &mut out, plan, rules)?;
    push_one(&mut out, b"start: ", plan.start())?;
    push_bytes(&mut out, b"\n")?;
    Ok(out)
}

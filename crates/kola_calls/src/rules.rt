//! Rules and their copies, tables of rules, and the table of the laws.

use crate::samples::{Broken, boxed, is_printed, term_with, variables};
use kola_canon::type_text;
use kola_core::{Memory, Name, Names};
use kola_laws::laws;
use kola_rule::{Rule, RuleTable, names_are_distinct};
use kola_term::{MetaCtx, Term};
use kola_values::Ty;
use std::alloc::Global;
use std::test::Fail;

/// The condition that `f` is injective.
fn conditions(alloc: Global) -> Result<Names, Memory> {
    let mut when = Names::new(alloc);
    when.push(Name::from_text(alloc, "f")?)?;
    Ok(when)
}

/// The rule of these parts, at the integers.
fn made(name: Name, vars: MetaCtx, when: Names, left: Box<Term>, right: Box<Term>) -> Rule {
    Rule {
        name,
        vars,
        input: Ty::Int,
        when,
        left: Box::into_inner(left),
        right: Box::into_inner(right),
    }
}

/// The rule of a name whose sides are the terms of these texts, under the condition that `f` is injective.
fn rule(alloc: Global, name: &str, left: &str, right: &str) -> Result<Box<Rule>, Broken> {
    let name = Name::from_text(alloc, name)?;
    let vars = variables(alloc)?;
    let when = conditions(alloc)?;
    let left = term_with(alloc, left, &vars)?;
    let right = term_with(alloc, right, &vars)?;
    Ok(boxed(alloc, made(name, vars, when, left, right))?)
}

/// Whether a list of names is the one name `f`.
fn is_f(names: &Names) -> bool {
    match names.as_slice() {
        [name] => name.as_text() == "f",
        _ => false,
    }
}

/// Whether a rule is at the integers.
fn is_at_integers(alloc: Global, rule: &Rule) -> Result<bool, Memory> {
    let input = type_text(alloc, &rule.input)?;
    Ok(input.as_slice() == b"int".as_slice())
}

/// Whether a rule has this name, these sides, three variables, and the one condition, at the integers.
fn is_rule(alloc: Global, rule: &Rule, name: &str, sides: (&str, &str)) -> Result<bool, Memory> {
    let headed = rule.name.as_text() == name && rule.vars.len() == 3 && is_f(&rule.when);
    Ok(
        headed
            && is_at_integers(alloc, rule)?
            && is_printed(alloc, &rule.left, sides.0)?
            && is_printed(alloc, &rule.right, sides.1)?,
    )
}

fn copied(alloc: Global, rule: &Rule) -> Result<Box<Rule>, Memory> {
    let copy = rule.copy()?;
    let copied = boxed(alloc, copy)?;
    Ok(copied)
}

/// Whether the copy of a rule has the rule's parts.
fn is_copied(alloc: Global, name: &str, left: &str, right: &str) -> Result<bool, Broken> {
    let rule = rule(alloc, name, left, right)?;
    let copy = copied(alloc, &rule)?;
    Ok(is_rule(alloc, &copy, name, (left, right))?)
}

#[test]
fn rules_are_copied(rt: HostRuntime) -> Result<(), Fail> {
    for (name, left, right) in [
        ("same", "(f o <id, K(c)>)", "f"),
        ("near", "~(p & KP(true))", "~p"),
        ("x", "c", "{1, 2}"),
    ] {
        assert!(rt; is_copied(rt.alloc(), name, left, right)?, "{name}");
    }
    Ok(())
}

/// Why a rule was handed back.
fn wanted(handed_back: (Memory, Rule)) -> Memory {
    handed_back.0
}

/// Adds a rule at the end of a table, where its name is new.
fn add(table: &mut RuleTable, rule: Box<Rule>) -> Result<(), Memory> {
    match table.find(&rule.name) {
        Some(_) => Ok(()),
        None => table.push(Box::into_inner(rule)).map_err(wanted),
    }
}

/// The table of rules of these names.
fn table_of(alloc: Global, names: &[&str]) -> Result<Box<RuleTable>, Broken> {
    let mut table = boxed(alloc, RuleTable::new(alloc))?;
    for name in names {
        add(&mut table, rule(alloc, name, "(f o id)", "f")?)?;
    }
    Ok(table)
}

fn place_of(alloc: Global, table: &RuleTable, name: &str) -> Result<Option<usize>, Memory> {
    let name = Name::from_text(alloc, name)?;
    Ok(table.find(&name))
}

/// The name of the rule at a place; empty past the end.
fn name_at(table: &RuleTable, n: usize) -> &str {
    match table.get(n) {
        Some(rule) => rule.name.as_text(),
        None => "",
    }
}

#[test]
fn a_table_finds_rules_by_their_names(rt: HostRuntime) -> Result<(), Fail> {
    let empty = table_of(rt.alloc(), &[])?;
    assert_eq!(rt; empty.len(), 0);
    assert_eq!(rt; place_of(rt.alloc(), &empty, "near")?, None);
    assert_eq!(rt; name_at(&empty, 0), "");
    let table = table_of(rt.alloc(), &["near", "same", "near", "push"])?;
    assert_eq!(rt; table.len(), 3);
    for (name, place) in [
        ("near", Some(0)),
        ("same", Some(1)),
        ("push", Some(2)),
        ("nea", None),
        ("nears", None),
    ] {
        assert_eq!(rt; place_of(rt.alloc(), &table, name)?, place, "{name}");
    }
    for (n, name) in [(0, "near"), (1, "same"), (2, "push"), (3, "")] {
        assert_eq!(rt; name_at(&table, n), name);
    }
    Ok(())
}

fn push_rule(rules: &mut Vec<Rule>, rule: Box<Rule>) -> Result<(), Memory> {
    rules.push(Box::into_inner(rule))?;
    Ok(())
}

/// Whether rules of these names have distinct names.
fn are_distinct(alloc: Global, names: &[&str]) -> Result<bool, Broken> {
    let mut rules = Vec::new(alloc);
    for name in names {
        push_rule(&mut rules, rule(alloc, name, "(f o id)", "f")?)?;
    }
    Ok(names_are_distinct(alloc, rules.as_slice())?)
}

#[test]
fn rules_have_distinct_names_or_not(rt: HostRuntime) -> Result<(), Fail> {
    let shown: [(&[&str], bool); 4] = [
        (&[], true),
        (&["near", "same", "nea"], true),
        (&["near", "same", "near"], false),
        (&["same", "near", "near"], false),
    ];
    for (names, wanted) in shown {
        assert_eq!(rt; are_distinct(rt.alloc(), names)?, wanted);
    }
    Ok(())
}

fn laws_in_box(alloc: Global) -> Result<Box<RuleTable>, Memory> {
    let laws = laws(alloc)?;
    let boxed = boxed(alloc, laws)?;
    Ok(boxed)
}

#[test]
fn each_group_of_laws_begins_at_its_place(rt: HostRuntime) -> Result<(), Fail> {
    let laws = laws_in_box(rt.alloc())?;
    assert_eq!(rt; laws.len(), 88);
    for (n, name) in [
        (0, "id_left"),
        (14, "if_true"),
        (19, "at_id"),
        (26, "and_true"),
        (40, "inv_def"),
        (46, "iterate_id"),
        (56, "join_def"),
        (64, "nest_def"),
        (69, "not_ex"),
        (78, "iterate_union"),
        (84, "eq_inj"),
        (87, "minus_inj"),
    ] {
        assert_eq!(rt; name_at(&laws, n), name);
        assert_eq!(rt; place_of(rt.alloc(), &laws, name)?, Some(n));
    }
    assert_eq!(rt; place_of(rt.alloc(), &laws, "near")?, None);
    assert_eq!(rt; name_at(&laws, 88), "");
    Ok(())
}

//! The laws of choice.

ghost use Rattle.std.specs.Prelude.{◌≡◌, ◌++◌, map, OnOk};
ghost use Rattle.kola_rule.specs.RuleViews.{rule_tree};
ghost use Rattle.kola_laws.specs.Choice.{choice, if_true, if_false, if_same, if_not, if_comp};
ghost use Rattle.kola_laws.specs.Making.{MakesRule};

use crate::maker::{MadeRule, Maker, add};
use kola_core::Memory;
use kola_rule::Rule;

/// Adds these laws at the end of rules.
pub fn choice(m: Maker, rules: &mut Vec<Rule>) -> Result<(), Memory>
    ensures { OnOk result (map rule_tree rules.new.items ≡ map rule_tree rules.old.items ++ choice) }
{
    add(rules, if_true(m))?;
    add(rules, if_false(m))?;
    add(rules, if_same(m))?;
    add(rules, if_not(m))?;
    add(rules, if_comp(m))?;
    Ok(())
}

/// `if(KP(true), f, g) = f`
fn if_true(m: Maker) -> MadeRule
    ensures { MakesRule result if_true }
{
    let vars = m.fun_var(
        "f",
        m.ty("a"),
        m.ty("b"),
        m.fun_var("g", m.ty("a"), m.ty("b"), m.no_vars()),
    );
    let input = m.ty("a");
    let left = m.choice(m.known(true), m.fun("f"), m.fun("g"));
    let right = m.fun("f");
    m.funs("if_true", vars, input, left, right)
}

/// `if(KP(false), f, g) = g`
fn if_false(m: Maker) -> MadeRule
    ensures { MakesRule result if_false }
{
    let vars = m.fun_var(
        "f",
        m.ty("a"),
        m.ty("b"),
        m.fun_var("g", m.ty("a"), m.ty("b"), m.no_vars()),
    );
    let input = m.ty("a");
    let left = m.choice(m.known(false), m.fun("f"), m.fun("g"));
    let right = m.fun("g");
    m.funs("if_false", vars, input, left, right)
}

/// `if(p, f, f) = f`
fn if_same(m: Maker) -> MadeRule
    ensures { MakesRule result if_same }
{
    let vars = m.pred_var(
        "p",
        m.ty("a"),
        m.fun_var("f", m.ty("a"), m.ty("b"), m.no_vars()),
    );
    let input = m.ty("a");
    let left = m.choice(m.pred("p"), m.fun("f"), m.fun("f"));
    let right = m.fun("f");
    m.funs("if_same", vars, input, left, right)
}

/// `if(~p, f, g) = if(p, g, f)`
fn if_not(m: Maker) -> MadeRule
    ensures { MakesRule result if_not }
{
    let vars = m.pred_var(
        "p",
        m.ty("a"),
        m.fun_var(
            "f",
            m.ty("a"),
            m.ty("b"),
            m.fun_var("g", m.ty("a"), m.ty("b"), m.no_vars()),
        ),
    );
    let input = m.ty("a");
    let left = m.choice(m.not(m.pred("p")), m.fun("f"), m.fun("g"));
    let right = m.choice(m.pred("p"), m.fun("g"), m.fun("f"));
    m.funs("if_not", vars, input, left, right)
}

/// `(if(p, f, g) o h) = if((p @ h), (f o h), (g o h))`
fn if_comp(m: Maker) -> MadeRule
    ensures { MakesRule result if_comp }
{
    let vars = m.pred_var(
        "p",
        m.ty("b"),
        m.fun_var(
            "f",
            m.ty("b"),
            m.ty("c"),
            m.fun_var(
                "g",
                m.ty("b"),
                m.ty("c"),
                m.fun_var("h", m.ty("a"), m.ty("b"), m.no_vars()),
            ),
        ),
    );
    let input = m.ty("a");
    let left = m.comp(m.choice(m.pred("p"), m.fun("f"), m.fun("g")), m.fun("h"));
    let right = m.choice(
        m.at(m.pred("p"), m.fun("h")),
        m.comp(m.fun("f"), m.fun("h")),
        m.comp(m.fun("g"), m.fun("h")),
    );
    m.funs("if_comp", vars, input, left, right)
}

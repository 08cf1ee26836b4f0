//! The laws of predicates after a function.

ghost use Rattle.std.specs.Prelude.{◌≡◌, ◌++◌, map, OnOk};
ghost use Rattle.kola_rule.specs.RuleViews.{rule_tree};
ghost use Rattle.kola_laws.specs.Restriction.{restriction, at_id, at_at, at_and, at_or, at_not, at_true, at_false};
ghost use Rattle.kola_laws.specs.Making.{MakesRule};

use crate::maker::{MadeRule, Maker, add};
use kola_core::Memory;
use kola_rule::Rule;

/// Adds these laws at the end of rules.
pub fn restriction(m: Maker, rules: &mut Vec<Rule>) -> Result<(), Memory>
    ensures { OnOk result (map rule_tree rules.new.items ≡ map rule_tree rules.old.items ++ restriction) }
{
    add(rules, at_id(m))?;
    add(rules, at_at(m))?;
    add(rules, at_and(m))?;
    add(rules, at_or(m))?;
    add(rules, at_not(m))?;
    add(rules, at_true(m))?;
    add(rules, at_false(m))?;
    Ok(())
}

/// `(p @ id) = p`
fn at_id(m: Maker) -> MadeRule
    ensures { MakesRule result at_id }
{
    let vars = m.pred_var("p", m.ty("a"), m.no_vars());
    let input = m.ty("a");
    let left = m.at(m.pred("p"), m.id());
    let right = m.pred("p");
    m.preds("at_id", vars, input, left, right)
}

/// `((p @ f) @ g) = (p @ (f o g))`
fn at_at(m: Maker) -> MadeRule
    ensures { MakesRule result at_at }
{
    let vars = m.pred_var(
        "p",
        m.ty("c"),
        m.fun_var(
            "f",
            m.ty("b"),
            m.ty("c"),
            m.fun_var("g", m.ty("a"), m.ty("b"), m.no_vars()),
        ),
    );
    let input = m.ty("a");
    let left = m.at(m.at(m.pred("p"), m.fun("f")), m.fun("g"));
    let right = m.at(m.pred("p"), m.comp(m.fun("f"), m.fun("g")));
    m.preds("at_at", vars, input, left, right)
}

/// `((p & q) @ f) = ((p @ f) & (q @ f))`
fn at_and(m: Maker) -> MadeRule
    ensures { MakesRule result at_and }
{
    let vars = m.pred_var(
        "p",
        m.ty("b"),
        m.pred_var(
            "q",
            m.ty("b"),
            m.fun_var("f", m.ty("a"), m.ty("b"), m.no_vars()),
        ),
    );
    let input = m.ty("a");
    let left = m.at(m.and(m.pred("p"), m.pred("q")), m.fun("f"));
    let right = m.and(m.at(m.pred("p"), m.fun("f")), m.at(m.pred("q"), m.fun("f")));
    m.preds("at_and", vars, input, left, right)
}

/// `((p | q) @ f) = ((p @ f) | (q @ f))`
fn at_or(m: Maker) -> MadeRule
    ensures { MakesRule result at_or }
{
    let vars = m.pred_var(
        "p",
        m.ty("b"),
        m.pred_var(
            "q",
            m.ty("b"),
            m.fun_var("f", m.ty("a"), m.ty("b"), m.no_vars()),
        ),
    );
    let input = m.ty("a");
    let left = m.at(m.or(m.pred("p"), m.pred("q")), m.fun("f"));
    let right = m.or(m.at(m.pred("p"), m.fun("f")), m.at(m.pred("q"), m.fun("f")));
    m.preds("at_or", vars, input, left, right)
}

/// `(~p @ f) = ~(p @ f)`
fn at_not(m: Maker) -> MadeRule
    ensures { MakesRule result at_not }
{
    let vars = m.pred_var(
        "p",
        m.ty("b"),
        m.fun_var("f", m.ty("a"), m.ty("b"), m.no_vars()),
    );
    let input = m.ty("a");
    let left = m.at(m.not(m.pred("p")), m.fun("f"));
    let right = m.not(m.at(m.pred("p"), m.fun("f")));
    m.preds("at_not", vars, input, left, right)
}

/// `(KP(true) @ f) = KP(true)`
fn at_true(m: Maker) -> MadeRule
    ensures { MakesRule result at_true }
{
    let vars = m.fun_var("f", m.ty("a"), m.ty("b"), m.no_vars());
    let input = m.ty("a");
    let left = m.at(m.known(true), m.fun("f"));
    let right = m.known(true);
    m.preds("at_true", vars, input, left, right)
}

/// `(KP(false) @ f) = KP(false)`
fn at_false(m: Maker) -> MadeRule
    ensures { MakesRule result at_false }
{
    let vars = m.fun_var("f", m.ty("a"), m.ty("b"), m.no_vars());
    let input = m.ty("a");
    let left = m.at(m.known(false), m.fun("f"));
    let right = m.known(false);
    m.preds("at_false", vars, input, left, right)
}

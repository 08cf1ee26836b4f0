//! The laws of truth.

ghost use Rattle.std.specs.Prelude.{◌≡◌, ◌++◌, map, OnOk};
ghost use Rattle.kola_rule.specs.RuleViews.{rule_tree};
ghost use Rattle.kola_laws.specs.Truth.{truth, and_true, and_false, or_true, or_false, and_same, and_comm, or_comm};
ghost use Rattle.kola_laws.specs.Truth.{and_assoc, or_assoc, not_not, not_true, not_and, not_or, and_or};
ghost use Rattle.kola_laws.specs.Making.{MakesRule};

use crate::maker::{MadeRule, Maker, add};
use kola_core::Memory;
use kola_rule::Rule;

/// Adds these laws at the end of rules.
pub fn truth(m: Maker, rules: &mut Vec<Rule>) -> Result<(), Memory>
    ensures { OnOk result (map rule_tree rules.new.items ≡ map rule_tree rules.old.items ++ truth) }
{
    add(rules, and_true(m))?;
    add(rules, and_false(m))?;
    add(rules, or_true(m))?;
    add(rules, or_false(m))?;
    add(rules, and_same(m))?;
    add(rules, and_comm(m))?;
    add(rules, or_comm(m))?;
    add(rules, and_assoc(m))?;
    add(rules, or_assoc(m))?;
    add(rules, not_not(m))?;
    add(rules, not_true(m))?;
    add(rules, not_and(m))?;
    add(rules, not_or(m))?;
    add(rules, and_or(m))?;
    Ok(())
}

/// `(p & KP(true)) = p`
fn and_true(m: Maker) -> MadeRule
    ensures { MakesRule result and_true }
{
    let vars = m.pred_var("p", m.ty("a"), m.no_vars());
    let input = m.ty("a");
    let left = m.and(m.pred("p"), m.known(true));
    let right = m.pred("p");
    m.preds("and_true", vars, input, left, right)
}

/// `(p & KP(false)) = KP(false)`
fn and_false(m: Maker) -> MadeRule
    ensures { MakesRule result and_false }
{
    let vars = m.pred_var("p", m.ty("a"), m.no_vars());
    let input = m.ty("a");
    let left = m.and(m.pred("p"), m.known(false));
    let right = m.known(false);
    m.preds("and_false", vars, input, left, right)
}

/// `(p | KP(true)) = KP(true)`
fn or_true(m: Maker) -> MadeRule
    ensures { MakesRule result or_true }
{
    let vars = m.pred_var("p", m.ty("a"), m.no_vars());
    let input = m.ty("a");
    let left = m.or(m.pred("p"), m.known(true));
    let right = m.known(true);
    m.preds("or_true", vars, input, left, right)
}

/// `(p | KP(false)) = p`
fn or_false(m: Maker) -> MadeRule
    ensures { MakesRule result or_false }
{
    let vars = m.pred_var("p", m.ty("a"), m.no_vars());
    let input = m.ty("a");
    let left = m.or(m.pred("p"), m.known(false));
    let right = m.pred("p");
    m.preds("or_false", vars, input, left, right)
}

/// `(p & p) = p`
fn and_same(m: Maker) -> MadeRule
    ensures { MakesRule result and_same }
{
    let vars = m.pred_var("p", m.ty("a"), m.no_vars());
    let input = m.ty("a");
    let left = m.and(m.pred("p"), m.pred("p"));
    let right = m.pred("p");
    m.preds("and_same", vars, input, left, right)
}

/// `(p & q) = (q & p)`
fn and_comm(m: Maker) -> MadeRule
    ensures { MakesRule result and_comm }
{
    let vars = m.pred_var("p", m.ty("a"), m.pred_var("q", m.ty("a"), m.no_vars()));
    let input = m.ty("a");
    let left = m.and(m.pred("p"), m.pred("q"));
    let right = m.and(m.pred("q"), m.pred("p"));
    m.preds("and_comm", vars, input, left, right)
}

/// `(p | q) = (q | p)`
fn or_comm(m: Maker) -> MadeRule
    ensures { MakesRule result or_comm }
{
    let vars = m.pred_var("p", m.ty("a"), m.pred_var("q", m.ty("a"), m.no_vars()));
    let input = m.ty("a");
    let left = m.or(m.pred("p"), m.pred("q"));
    let right = m.or(m.pred("q"), m.pred("p"));
    m.preds("or_comm", vars, input, left, right)
}

/// `((p & q) & r) = (p & (q & r))`
fn and_assoc(m: Maker) -> MadeRule
    ensures { MakesRule result and_assoc }
{
    let vars = m.pred_var(
        "p",
        m.ty("a"),
        m.pred_var("q", m.ty("a"), m.pred_var("r", m.ty("a"), m.no_vars())),
    );
    let input = m.ty("a");
    let left = m.and(m.and(m.pred("p"), m.pred("q")), m.pred("r"));
    let right = m.and(m.pred("p"), m.and(m.pred("q"), m.pred("r")));
    m.preds("and_assoc", vars, input, left, right)
}

/// `((p | q) | r) = (p | (q | r))`
fn or_assoc(m: Maker) -> MadeRule
    ensures { MakesRule result or_assoc }
{
    let vars = m.pred_var(
        "p",
        m.ty("a"),
        m.pred_var("q", m.ty("a"), m.pred_var("r", m.ty("a"), m.no_vars())),
    );
    let input = m.ty("a");
    let left = m.or(m.or(m.pred("p"), m.pred("q")), m.pred("r"));
    let right = m.or(m.pred("p"), m.or(m.pred("q"), m.pred("r")));
    m.preds("or_assoc", vars, input, left, right)
}

/// `~~p = p`
fn not_not(m: Maker) -> MadeRule
    ensures { MakesRule result not_not }
{
    let vars = m.pred_var("p", m.ty("a"), m.no_vars());
    let input = m.ty("a");
    let left = m.not(m.not(m.pred("p")));
    let right = m.pred("p");
    m.preds("not_not", vars, input, left, right)
}

/// `~KP(true) = KP(false)`
fn not_true(m: Maker) -> MadeRule
    ensures { MakesRule result not_true }
{
    let vars = m.no_vars();
    let input = m.ty("a");
    let left = m.not(m.known(true));
    let right = m.known(false);
    m.preds("not_true", vars, input, left, right)
}

/// `~(p & q) = (~p | ~q)`
fn not_and(m: Maker) -> MadeRule
    ensures { MakesRule result not_and }
{
    let vars = m.pred_var("p", m.ty("a"), m.pred_var("q", m.ty("a"), m.no_vars()));
    let input = m.ty("a");
    let left = m.not(m.and(m.pred("p"), m.pred("q")));
    let right = m.or(m.not(m.pred("p")), m.not(m.pred("q")));
    m.preds("not_and", vars, input, left, right)
}

/// `~(p | q) = (~p & ~q)`
fn not_or(m: Maker) -> MadeRule
    ensures { MakesRule result not_or }
{
    let vars = m.pred_var("p", m.ty("a"), m.pred_var("q", m.ty("a"), m.no_vars()));
    let input = m.ty("a");
    let left = m.not(m.or(m.pred("p"), m.pred("q")));
    let right = m.and(m.not(m.pred("p")), m.not(m.pred("q")));
    m.preds("not_or", vars, input, left, right)
}

/// `((p | q) & r) = ((p & r) | (q & r))`
fn and_or(m: Maker) -> MadeRule
    ensures { MakesRule result and_or }
{
    let vars = m.pred_var(
        "p",
        m.ty("a"),
        m.pred_var("q", m.ty("a"), m.pred_var("r", m.ty("a"), m.no_vars())),
    );
    let input = m.ty("a");
    let left = m.and(m.or(m.pred("p"), m.pred("q")), m.pred("r"));
    let right = m.or(
        m.and(m.pred("p"), m.pred("r")),
        m.and(m.pred("q"), m.pred("r")),
    );
    m.preds("and_or", vars, input, left, right)
}

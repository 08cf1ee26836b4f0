//! The laws of comparisons.

ghost use Rattle.std.specs.Prelude.{◌≡◌, ◌++◌, map, OnOk};
ghost use Rattle.kola_rule.specs.RuleViews.{rule_tree};
ghost use Rattle.kola_laws.specs.Comparison.{comparison, inv_def, cp_def, eq_self, eq_comm, not_le, le_or};
ghost use Rattle.kola_laws.specs.Making.{MakesRule};

use crate::maker::{MadeRule, Maker, add};
use kola_core::Memory;
use kola_rule::Rule;

/// Adds these laws at the end of rules.
pub fn comparison(m: Maker, rules: &mut Vec<Rule>) -> Result<(), Memory>
    ensures { OnOk result (map rule_tree rules.new.items ≡ map rule_tree rules.old.items ++ comparison) }
{
    add(rules, inv_def(m))?;
    add(rules, cp_def(m))?;
    add(rules, eq_self(m))?;
    add(rules, eq_comm(m))?;
    add(rules, not_le(m))?;
    add(rules, le_or(m))?;
    Ok(())
}

/// `inv(p) = (p @ <snd, fst>)`
fn inv_def(m: Maker) -> MadeRule
    ensures { MakesRule result inv_def }
{
    let vars = m.pred_var("p", m.pair_type(m.ty("b"), m.ty("a")), m.no_vars());
    let input = m.pair_type(m.ty("a"), m.ty("b"));
    let left = m.inverse(m.pred("p"));
    let right = m.at(m.pred("p"), m.pair(m.snd(), m.fst()));
    m.preds("inv_def", vars, input, left, right)
}

/// `CP(p, x) = (p @ <K(x), id>)`
fn cp_def(m: Maker) -> MadeRule
    ensures { MakesRule result cp_def }
{
    let vars = m.pred_var(
        "p",
        m.pair_type(m.ty("c"), m.ty("a")),
        m.const_var("x", m.ty("c"), m.no_vars()),
    );
    let input = m.ty("a");
    let left = m.partial_pred(m.pred("p"), m.constant("x"));
    let right = m.at(m.pred("p"), m.pair(m.always(m.constant("x")), m.id()));
    m.preds("cp_def", vars, input, left, right)
}

/// `(eq @ <f, f>) = KP(true)`
fn eq_self(m: Maker) -> MadeRule
    ensures { MakesRule result eq_self }
{
    let vars = m.fun_var("f", m.ty("a"), m.ty("b"), m.no_vars());
    let input = m.ty("a");
    let left = m.at(m.eq(), m.pair(m.fun("f"), m.fun("f")));
    let right = m.known(true);
    m.preds("eq_self", vars, input, left, right)
}

/// `(eq @ <snd, fst>) = eq`
fn eq_comm(m: Maker) -> MadeRule
    ensures { MakesRule result eq_comm }
{
    let vars = m.no_vars();
    let input = m.pair_type(m.ty("a"), m.ty("a"));
    let left = m.at(m.eq(), m.pair(m.snd(), m.fst()));
    let right = m.eq();
    m.preds("eq_comm", vars, input, left, right)
}

/// `~le = (lt @ <snd, fst>)`
fn not_le(m: Maker) -> MadeRule
    ensures { MakesRule result not_le }
{
    let vars = m.no_vars();
    let input = m.pair_type(m.ty("a"), m.ty("a"));
    let left = m.not(m.le());
    let right = m.at(m.lt(), m.pair(m.snd(), m.fst()));
    m.preds("not_le", vars, input, left, right)
}

/// `le = (lt | eq)`
fn le_or(m: Maker) -> MadeRule
    ensures { MakesRule result le_or }
{
    let vars = m.no_vars();
    let input = m.pair_type(m.ty("a"), m.ty("a"));
    let left = m.le();
    let right = m.or(m.lt(), m.eq());
    m.preds("le_or", vars, input, left, right)
}

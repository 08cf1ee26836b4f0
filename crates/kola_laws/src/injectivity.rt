//! The laws of injective functions.

ghost use Rattle.std.specs.Prelude.{◌≡◌, ◌++◌, map, OnOk};
ghost use Rattle.kola_rule.specs.RuleViews.{rule_tree};
ghost use Rattle.kola_laws.specs.Injectivity.{injectivity, eq_inj, in_inj, isect_inj, minus_inj};
ghost use Rattle.kola_laws.specs.Making.{MakesRule};

use crate::maker::{MadeRule, Maker, add};
use kola_core::Memory;
use kola_rule::Rule;

/// Adds these laws at the end of rules.
pub fn injectivity(m: Maker, rules: &mut Vec<Rule>) -> Result<(), Memory>
    ensures { OnOk result (map rule_tree rules.new.items ≡ map rule_tree rules.old.items ++ injectivity) }
{
    add(rules, eq_inj(m))?;
    add(rules, in_inj(m))?;
    add(rules, isect_inj(m))?;
    add(rules, minus_inj(m))?;
    Ok(())
}

/// `(eq @ (f * f)) = eq`
fn eq_inj(m: Maker) -> MadeRule
    ensures { MakesRule result eq_inj }
{
    let vars = m.fun_var("f", m.ty("a"), m.ty("b"), m.no_vars());
    let input = m.pair_type(m.ty("a"), m.ty("a"));
    let left = m.at(m.eq(), m.times(m.fun("f"), m.fun("f")));
    let right = m.eq();
    m.when_injective("f", m.preds("eq_inj", vars, input, left, right))
}

/// `(in @ (f * iterate(KP(true), f))) = in`
fn in_inj(m: Maker) -> MadeRule
    ensures { MakesRule result in_inj }
{
    let vars = m.fun_var("f", m.ty("a"), m.ty("b"), m.no_vars());
    let input = m.pair_type(m.ty("a"), m.set(m.ty("a")));
    let left = m.at(
        m.member(),
        m.times(m.fun("f"), m.iterate(m.known(true), m.fun("f"))),
    );
    let right = m.member();
    m.when_injective("f", m.preds("in_inj", vars, input, left, right))
}

/// `(iterate(KP(true), f) o isect) = (isect o (iterate(KP(true), f) * iterate(KP(true), f)))`
fn isect_inj(m: Maker) -> MadeRule
    ensures { MakesRule result isect_inj }
{
    let vars = m.fun_var("f", m.ty("a"), m.ty("b"), m.no_vars());
    let input = m.pair_type(m.set(m.ty("a")), m.set(m.ty("a")));
    let left = m.comp(m.iterate(m.known(true), m.fun("f")), m.isect());
    let right = m.comp(
        m.isect(),
        m.times(
            m.iterate(m.known(true), m.fun("f")),
            m.iterate(m.known(true), m.fun("f")),
        ),
    );
    m.when_injective("f", m.funs("isect_inj", vars, input, left, right))
}

/// `(iterate(KP(true), f) o minus) = (minus o (iterate(KP(true), f) * iterate(KP(true), f)))`
fn minus_inj(m: Maker) -> MadeRule
    ensures { MakesRule result minus_inj }
{
    let vars = m.fun_var("f", m.ty("a"), m.ty("b"), m.no_vars());
    let input = m.pair_type(m.set(m.ty("a")), m.set(m.ty("a")));
    let left = m.comp(m.iterate(m.known(true), m.fun("f")), m.minus());
    let right = m.comp(
        m.minus(),
        m.times(
            m.iterate(m.known(true), m.fun("f")),
            m.iterate(m.known(true), m.fun("f")),
        ),
    );
    m.when_injective("f", m.funs("minus_inj", vars, input, left, right))
}

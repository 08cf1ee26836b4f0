//! The laws of quantifiers.

ghost use Rattle.std.specs.Prelude.{◌≡◌, ◌++◌, map, OnOk};
ghost use Rattle.kola_rule.specs.RuleViews.{rule_tree};
ghost use Rattle.kola_laws.specs.Quantifiers.{quantifiers, not_ex, not_fa, in_ex, ex_or, fa_and, ex_and_env, ex_iter};
ghost use Rattle.kola_laws.specs.Quantifiers.{ex_env, fa_env};
ghost use Rattle.kola_laws.specs.Making.{MakesRule};

use crate::maker::{MadeRule, Maker, add};
use kola_core::Memory;
use kola_rule::Rule;

/// Adds these laws at the end of rules.
pub fn quantifiers(m: Maker, rules: &mut Vec<Rule>) -> Result<(), Memory>
    ensures { OnOk result (map rule_tree rules.new.items ≡ map rule_tree rules.old.items ++ quantifiers) }
{
    add(rules, not_ex(m))?;
    add(rules, not_fa(m))?;
    add(rules, in_ex(m))?;
    add(rules, ex_or(m))?;
    add(rules, fa_and(m))?;
    add(rules, ex_and_env(m))?;
    add(rules, ex_iter(m))?;
    add(rules, ex_env(m))?;
    add(rules, fa_env(m))?;
    Ok(())
}

/// `~ex(p) = fa(~p)`
fn not_ex(m: Maker) -> MadeRule
    ensures { MakesRule result not_ex }
{
    let vars = m.pred_var("p", m.pair_type(m.ty("a"), m.ty("b")), m.no_vars());
    let input = m.pair_type(m.ty("a"), m.set(m.ty("b")));
    let left = m.not(m.some(m.pred("p")));
    let right = m.each(m.not(m.pred("p")));
    m.preds("not_ex", vars, input, left, right)
}

/// `~fa(p) = ex(~p)`
fn not_fa(m: Maker) -> MadeRule
    ensures { MakesRule result not_fa }
{
    let vars = m.pred_var("p", m.pair_type(m.ty("a"), m.ty("b")), m.no_vars());
    let input = m.pair_type(m.ty("a"), m.set(m.ty("b")));
    let left = m.not(m.each(m.pred("p")));
    let right = m.some(m.not(m.pred("p")));
    m.preds("not_fa", vars, input, left, right)
}

/// `in = ex(eq)`
fn in_ex(m: Maker) -> MadeRule
    ensures { MakesRule result in_ex }
{
    let vars = m.no_vars();
    let input = m.pair_type(m.ty("a"), m.set(m.ty("a")));
    let left = m.member();
    let right = m.some(m.eq());
    m.preds("in_ex", vars, input, left, right)
}

/// `ex((p | q)) = (ex(p) | ex(q))`
fn ex_or(m: Maker) -> MadeRule
    ensures { MakesRule result ex_or }
{
    let vars = m.pred_var(
        "p",
        m.pair_type(m.ty("a"), m.ty("b")),
        m.pred_var("q", m.pair_type(m.ty("a"), m.ty("b")), m.no_vars()),
    );
    let input = m.pair_type(m.ty("a"), m.set(m.ty("b")));
    let left = m.some(m.or(m.pred("p"), m.pred("q")));
    let right = m.or(m.some(m.pred("p")), m.some(m.pred("q")));
    m.preds("ex_or", vars, input, left, right)
}

/// `fa((p & q)) = (fa(p) & fa(q))`
fn fa_and(m: Maker) -> MadeRule
    ensures { MakesRule result fa_and }
{
    let vars = m.pred_var(
        "p",
        m.pair_type(m.ty("a"), m.ty("b")),
        m.pred_var("q", m.pair_type(m.ty("a"), m.ty("b")), m.no_vars()),
    );
    let input = m.pair_type(m.ty("a"), m.set(m.ty("b")));
    let left = m.each(m.and(m.pred("p"), m.pred("q")));
    let right = m.and(m.each(m.pred("p")), m.each(m.pred("q")));
    m.preds("fa_and", vars, input, left, right)
}

/// `ex((p & (q @ fst))) = (ex(p) & (q @ fst))`
fn ex_and_env(m: Maker) -> MadeRule
    ensures { MakesRule result ex_and_env }
{
    let vars = m.pred_var(
        "p",
        m.pair_type(m.ty("a"), m.ty("b")),
        m.pred_var("q", m.ty("a"), m.no_vars()),
    );
    let input = m.pair_type(m.ty("a"), m.set(m.ty("b")));
    let left = m.some(m.and(m.pred("p"), m.at(m.pred("q"), m.fst())));
    let right = m.and(m.some(m.pred("p")), m.at(m.pred("q"), m.fst()));
    m.preds("ex_and_env", vars, input, left, right)
}

/// `(ex(p) @ <fst, iter(q, g)>) = ex((q & (p @ <fst, g>)))`
fn ex_iter(m: Maker) -> MadeRule
    ensures { MakesRule result ex_iter }
{
    let vars = m.pred_var(
        "p",
        m.pair_type(m.ty("a"), m.ty("c")),
        m.pred_var(
            "q",
            m.pair_type(m.ty("a"), m.ty("b")),
            m.fun_var(
                "g",
                m.pair_type(m.ty("a"), m.ty("b")),
                m.ty("c"),
                m.no_vars(),
            ),
        ),
    );
    let input = m.pair_type(m.ty("a"), m.set(m.ty("b")));
    let left = m.at(
        m.some(m.pred("p")),
        m.pair(m.fst(), m.iter(m.pred("q"), m.fun("g"))),
    );
    let right = m.some(m.and(m.pred("q"), m.at(m.pred("p"), m.pair(m.fst(), m.fun("g")))));
    m.preds("ex_iter", vars, input, left, right)
}

/// `(ex(p) @ (h * id)) = ex((p @ (h * id)))`
fn ex_env(m: Maker) -> MadeRule
    ensures { MakesRule result ex_env }
{
    let vars = m.pred_var(
        "p",
        m.pair_type(m.ty("c"), m.ty("b")),
        m.fun_var("h", m.ty("a"), m.ty("c"), m.no_vars()),
    );
    let input = m.pair_type(m.ty("a"), m.set(m.ty("b")));
    let left = m.at(m.some(m.pred("p")), m.times(m.fun("h"), m.id()));
    let right = m.some(m.at(m.pred("p"), m.times(m.fun("h"), m.id())));
    m.preds("ex_env", vars, input, left, right)
}

/// `(fa(p) @ (h * id)) = fa((p @ (h * id)))`
fn fa_env(m: Maker) -> MadeRule
    ensures { MakesRule result fa_env }
{
    let vars = m.pred_var(
        "p",
        m.pair_type(m.ty("c"), m.ty("b")),
        m.fun_var("h", m.ty("a"), m.ty("c"), m.no_vars()),
    );
    let input = m.pair_type(m.ty("a"), m.set(m.ty("b")));
    let left = m.at(m.each(m.pred("p")), m.times(m.fun("h"), m.id()));
    let right = m.each(m.at(m.pred("p"), m.times(m.fun("h"), m.id())));
    m.preds("fa_env", vars, input, left, right)
}

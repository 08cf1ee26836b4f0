//! The laws of nesting and unnesting.

ghost use Rattle.std.specs.Prelude.{◌≡◌, ◌++◌, map, OnOk};
ghost use Rattle.kola_rule.specs.RuleViews.{rule_tree};
ghost use Rattle.kola_laws.specs.Nesting.{nesting, nest_def, unnest_def, nest_join, nest_unnest, nest_const};
ghost use Rattle.kola_laws.specs.Making.{MakesRule};

use crate::maker::{MadeRule, Maker, add};
use kola_core::Memory;
use kola_rule::Rule;

/// Adds these laws at the end of rules.
pub fn nesting(m: Maker, rules: &mut Vec<Rule>) -> Result<(), Memory>
    ensures { OnOk result (map rule_tree rules.new.items ≡ map rule_tree rules.old.items ++ nesting) }
{
    add(rules, nest_def(m))?;
    add(rules, unnest_def(m))?;
    add(rules, nest_join(m))?;
    add(rules, nest_unnest(m))?;
    add(rules, nest_const(m))?;
    Ok(())
}

/// `nest(f, g) = iter(KP(true), <snd, (iter((eq @ <(f o snd), fst>), (g o snd)) o <snd, fst>)>)`
fn nest_def(m: Maker) -> MadeRule
    ensures { MakesRule result nest_def }
{
    let vars = m.fun_var(
        "f",
        m.ty("a"),
        m.ty("b"),
        m.fun_var("g", m.ty("a"), m.ty("c"), m.no_vars()),
    );
    let input = m.pair_type(m.set(m.ty("a")), m.set(m.ty("b")));
    let left = m.nest(m.fun("f"), m.fun("g"));
    let right = m.iter(
        m.known(true),
        m.pair(
            m.snd(),
            m.comp(
                m.iter(
                    m.at(m.eq(), m.pair(m.comp(m.fun("f"), m.snd()), m.fst())),
                    m.comp(m.fun("g"), m.snd()),
                ),
                m.pair(m.snd(), m.fst()),
            ),
        ),
    );
    m.funs("nest_def", vars, input, left, right)
}

/// `unnest(f, g) = (flat o iterate(KP(true), (iter(KP(true), id) o <f, g>)))`
fn unnest_def(m: Maker) -> MadeRule
    ensures { MakesRule result unnest_def }
{
    let vars = m.fun_var(
        "f",
        m.ty("a"),
        m.ty("b"),
        m.fun_var("g", m.ty("a"), m.set(m.ty("c")), m.no_vars()),
    );
    let input = m.set(m.ty("a"));
    let left = m.unnest(m.fun("f"), m.fun("g"));
    let right = m.comp(
        m.flat(),
        m.iterate(
            m.known(true),
            m.comp(
                m.iter(m.known(true), m.id()),
                m.pair(m.fun("f"), m.fun("g")),
            ),
        ),
    );
    m.funs("unnest_def", vars, input, left, right)
}

/// `(iter(KP(true), <snd, (iter(p, f) o <snd, fst>)>) o <snd, fst>) = (nest(fst, snd) o <join(p, <fst, f>), fst>)`
fn nest_join(m: Maker) -> MadeRule
    ensures { MakesRule result nest_join }
{
    let vars = m.pred_var(
        "p",
        m.pair_type(m.ty("a"), m.ty("b")),
        m.fun_var(
            "f",
            m.pair_type(m.ty("a"), m.ty("b")),
            m.ty("c"),
            m.no_vars(),
        ),
    );
    let input = m.pair_type(m.set(m.ty("a")), m.set(m.ty("b")));
    let left = m.comp(
        m.iter(
            m.known(true),
            m.pair(
                m.snd(),
                m.comp(m.iter(m.pred("p"), m.fun("f")), m.pair(m.snd(), m.fst())),
            ),
        ),
        m.pair(m.snd(), m.fst()),
    );
    let right = m.comp(
        m.nest(m.fst(), m.snd()),
        m.pair(m.join(m.pred("p"), m.pair(m.fst(), m.fun("f"))), m.fst()),
    );
    m.funs("nest_join", vars, input, left, right)
}

/// `(iter(KP(true), <snd, (flat o (iter(p, f) o <snd, fst>))>) o <snd, fst>)`
/// `= (nest(fst, snd) o <(unnest(fst, snd) o join(p, <fst, f>)), fst>)`
fn nest_unnest(m: Maker) -> MadeRule
    ensures { MakesRule result nest_unnest }
{
    let vars = m.pred_var(
        "p",
        m.pair_type(m.ty("a"), m.ty("b")),
        m.fun_var(
            "f",
            m.pair_type(m.ty("a"), m.ty("b")),
            m.set(m.ty("c")),
            m.no_vars(),
        ),
    );
    let input = m.pair_type(m.set(m.ty("a")), m.set(m.ty("b")));
    let left = m.comp(
        m.iter(
            m.known(true),
            m.pair(
                m.snd(),
                m.comp(
                    m.flat(),
                    m.comp(m.iter(m.pred("p"), m.fun("f")), m.pair(m.snd(), m.fst())),
                ),
            ),
        ),
        m.pair(m.snd(), m.fst()),
    );
    let right = m.comp(
        m.nest(m.fst(), m.snd()),
        m.pair(
            m.comp(
                m.unnest(m.fst(), m.snd()),
                m.join(m.pred("p"), m.pair(m.fst(), m.fun("f"))),
            ),
            m.fst(),
        ),
    );
    m.funs("nest_unnest", vars, input, left, right)
}

/// `(iter(KP(true), <snd, (iter(p, f) o <snd, K(x)>)>) o <id, K(y)>)`
/// `= ((nest(fst, snd) o <join(p, <fst, f>), fst>) o <K(y), K(x)>)`
fn nest_const(m: Maker) -> MadeRule
    ensures { MakesRule result nest_const }
{
    let vars = m.pred_var(
        "p",
        m.pair_type(m.ty("b"), m.ty("c")),
        m.fun_var(
            "f",
            m.pair_type(m.ty("b"), m.ty("c")),
            m.ty("d"),
            m.const_var(
                "x",
                m.set(m.ty("c")),
                m.const_var("y", m.set(m.ty("b")), m.no_vars()),
            ),
        ),
    );
    let input = m.ty("a");
    let left = m.comp(
        m.iter(
            m.known(true),
            m.pair(
                m.snd(),
                m.comp(
                    m.iter(m.pred("p"), m.fun("f")),
                    m.pair(m.snd(), m.always(m.constant("x"))),
                ),
            ),
        ),
        m.pair(m.id(), m.always(m.constant("y"))),
    );
    let right = m.comp(
        m.comp(
            m.nest(m.fst(), m.snd()),
            m.pair(m.join(m.pred("p"), m.pair(m.fst(), m.fun("f"))), m.fst()),
        ),
        m.pair(m.always(m.constant("y")), m.always(m.constant("x"))),
    );
    m.funs("nest_const", vars, input, left, right)
}

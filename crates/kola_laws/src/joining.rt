//! The laws of joins.

ghost use Rattle.std.specs.Prelude.{◌≡◌, ◌++◌, map, OnOk};
ghost use Rattle.kola_rule.specs.RuleViews.{rule_tree};
ghost use Rattle.kola_laws.specs.Joining.{joining, join_def, join_comm, join_left, join_right, join_select_left};
ghost use Rattle.kola_laws.specs.Joining.{join_select_right, iterate_join, join_isect};
ghost use Rattle.kola_laws.specs.Making.{MakesRule};

use crate::maker::{MadeRule, Maker, add};
use kola_core::Memory;
use kola_rule::Rule;

/// Adds these laws at the end of rules.
pub fn joining(m: Maker, rules: &mut Vec<Rule>) -> Result<(), Memory>
    ensures { OnOk result (map rule_tree rules.new.items ≡ map rule_tree rules.old.items ++ joining) }
{
    add(rules, join_def(m))?;
    add(rules, join_comm(m))?;
    add(rules, join_left(m))?;
    add(rules, join_right(m))?;
    add(rules, join_select_left(m))?;
    add(rules, join_select_right(m))?;
    add(rules, iterate_join(m))?;
    add(rules, join_isect(m))?;
    Ok(())
}

/// `join(p, f) = (flat o (iter(KP(true), (iter(p, f) o <snd, fst>)) o <snd, fst>))`
fn join_def(m: Maker) -> MadeRule
    ensures { MakesRule result join_def }
{
    let vars = m.pred_var(
        "p",
        m.pair_type(m.ty("a"), m.ty("b")),
        m.fun_var(
            "f",
            m.pair_type(m.ty("a"), m.ty("b")),
            m.ty("c"),
            m.no_vars(),
        ),
    );
    let input = m.pair_type(m.set(m.ty("a")), m.set(m.ty("b")));
    let left = m.join(m.pred("p"), m.fun("f"));
    let right = m.comp(
        m.flat(),
        m.comp(
            m.iter(
                m.known(true),
                m.comp(m.iter(m.pred("p"), m.fun("f")), m.pair(m.snd(), m.fst())),
            ),
            m.pair(m.snd(), m.fst()),
        ),
    );
    m.funs("join_def", vars, input, left, right)
}

/// `join(p, f) = (join((p @ <snd, fst>), (f o <snd, fst>)) o <snd, fst>)`
fn join_comm(m: Maker) -> MadeRule
    ensures { MakesRule result join_comm }
{
    let vars = m.pred_var(
        "p",
        m.pair_type(m.ty("a"), m.ty("b")),
        m.fun_var(
            "f",
            m.pair_type(m.ty("a"), m.ty("b")),
            m.ty("c"),
            m.no_vars(),
        ),
    );
    let input = m.pair_type(m.set(m.ty("a")), m.set(m.ty("b")));
    let left = m.join(m.pred("p"), m.fun("f"));
    let right = m.comp(
        m.join(
            m.at(m.pred("p"), m.pair(m.snd(), m.fst())),
            m.comp(m.fun("f"), m.pair(m.snd(), m.fst())),
        ),
        m.pair(m.snd(), m.fst()),
    );
    m.funs("join_comm", vars, input, left, right)
}

/// `(join(p, f) o (iterate(q, g) * id)) = join(((q @ fst) & (p @ (g * id))), (f o (g * id)))`
fn join_left(m: Maker) -> MadeRule
    ensures { MakesRule result join_left }
{
    let vars = m.pred_var(
        "p",
        m.pair_type(m.ty("c"), m.ty("b")),
        m.fun_var(
            "f",
            m.pair_type(m.ty("c"), m.ty("b")),
            m.ty("d"),
            m.pred_var(
                "q",
                m.ty("a"),
                m.fun_var("g", m.ty("a"), m.ty("c"), m.no_vars()),
            ),
        ),
    );
    let input = m.pair_type(m.set(m.ty("a")), m.set(m.ty("b")));
    let left = m.comp(
        m.join(m.pred("p"), m.fun("f")),
        m.times(m.iterate(m.pred("q"), m.fun("g")), m.id()),
    );
    let right = m.join(
        m.and(
            m.at(m.pred("q"), m.fst()),
            m.at(m.pred("p"), m.times(m.fun("g"), m.id())),
        ),
        m.comp(m.fun("f"), m.times(m.fun("g"), m.id())),
    );
    m.funs("join_left", vars, input, left, right)
}

/// `(join(p, f) o (id * iterate(q, g))) = join(((q @ snd) & (p @ (id * g))), (f o (id * g)))`
fn join_right(m: Maker) -> MadeRule
    ensures { MakesRule result join_right }
{
    let vars = m.pred_var(
        "p",
        m.pair_type(m.ty("a"), m.ty("c")),
        m.fun_var(
            "f",
            m.pair_type(m.ty("a"), m.ty("c")),
            m.ty("d"),
            m.pred_var(
                "q",
                m.ty("b"),
                m.fun_var("g", m.ty("b"), m.ty("c"), m.no_vars()),
            ),
        ),
    );
    let input = m.pair_type(m.set(m.ty("a")), m.set(m.ty("b")));
    let left = m.comp(
        m.join(m.pred("p"), m.fun("f")),
        m.times(m.id(), m.iterate(m.pred("q"), m.fun("g"))),
    );
    let right = m.join(
        m.and(
            m.at(m.pred("q"), m.snd()),
            m.at(m.pred("p"), m.times(m.id(), m.fun("g"))),
        ),
        m.comp(m.fun("f"), m.times(m.id(), m.fun("g"))),
    );
    m.funs("join_right", vars, input, left, right)
}

/// `join((p & (q @ fst)), f) = (join(p, f) o (iterate(q, id) * id))`
fn join_select_left(m: Maker) -> MadeRule
    ensures { MakesRule result join_select_left }
{
    let vars = m.pred_var(
        "p",
        m.pair_type(m.ty("a"), m.ty("b")),
        m.fun_var(
            "f",
            m.pair_type(m.ty("a"), m.ty("b")),
            m.ty("c"),
            m.pred_var("q", m.ty("a"), m.no_vars()),
        ),
    );
    let input = m.pair_type(m.set(m.ty("a")), m.set(m.ty("b")));
    let left = m.join(m.and(m.pred("p"), m.at(m.pred("q"), m.fst())), m.fun("f"));
    let right = m.comp(
        m.join(m.pred("p"), m.fun("f")),
        m.times(m.iterate(m.pred("q"), m.id()), m.id()),
    );
    m.funs("join_select_left", vars, input, left, right)
}

/// `join((p & (q @ snd)), f) = (join(p, f) o (id * iterate(q, id)))`
fn join_select_right(m: Maker) -> MadeRule
    ensures { MakesRule result join_select_right }
{
    let vars = m.pred_var(
        "p",
        m.pair_type(m.ty("a"), m.ty("b")),
        m.fun_var(
            "f",
            m.pair_type(m.ty("a"), m.ty("b")),
            m.ty("c"),
            m.pred_var("q", m.ty("b"), m.no_vars()),
        ),
    );
    let input = m.pair_type(m.set(m.ty("a")), m.set(m.ty("b")));
    let left = m.join(m.and(m.pred("p"), m.at(m.pred("q"), m.snd())), m.fun("f"));
    let right = m.comp(
        m.join(m.pred("p"), m.fun("f")),
        m.times(m.id(), m.iterate(m.pred("q"), m.id())),
    );
    m.funs("join_select_right", vars, input, left, right)
}

/// `(iterate(q, g) o join(p, f)) = join((p & (q @ f)), (g o f))`
fn iterate_join(m: Maker) -> MadeRule
    ensures { MakesRule result iterate_join }
{
    let vars = m.pred_var(
        "p",
        m.pair_type(m.ty("a"), m.ty("b")),
        m.fun_var(
            "f",
            m.pair_type(m.ty("a"), m.ty("b")),
            m.ty("c"),
            m.pred_var(
                "q",
                m.ty("c"),
                m.fun_var("g", m.ty("c"), m.ty("d"), m.no_vars()),
            ),
        ),
    );
    let input = m.pair_type(m.set(m.ty("a")), m.set(m.ty("b")));
    let left = m.comp(
        m.iterate(m.pred("q"), m.fun("g")),
        m.join(m.pred("p"), m.fun("f")),
    );
    let right = m.join(
        m.and(m.pred("p"), m.at(m.pred("q"), m.fun("f"))),
        m.comp(m.fun("g"), m.fun("f")),
    );
    m.funs("iterate_join", vars, input, left, right)
}

/// `join(eq, fst) = isect`
fn join_isect(m: Maker) -> MadeRule
    ensures { MakesRule result join_isect }
{
    let vars = m.no_vars();
    let input = m.pair_type(m.set(m.ty("a")), m.set(m.ty("a")));
    let left = m.join(m.eq(), m.fst());
    let right = m.isect();
    m.funs("join_isect", vars, input, left, right)
}

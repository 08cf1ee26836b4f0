//! The laws of iteration over sets.

ghost use Rattle.std.specs.Prelude.{◌≡◌, ◌++◌, map, OnOk};
ghost use Rattle.kola_rule.specs.RuleViews.{rule_tree};
ghost use Rattle.kola_laws.specs.Iteration.{iteration, iterate_id, iterate_iterate, iter_snd, iter_iter, iter_env};
ghost use Rattle.kola_laws.specs.Iteration.{iter_const, flat_iterate, flat_flat, flat_iter, iterate_iter};
ghost use Rattle.kola_laws.specs.Making.{MakesRule};

use crate::maker::{MadeRule, Maker, add};
use kola_core::Memory;
use kola_rule::Rule;

/// Adds these laws at the end of rules.
pub fn iteration(m: Maker, rules: &mut Vec<Rule>) -> Result<(), Memory>
    ensures { OnOk result (map rule_tree rules.new.items ≡ map rule_tree rules.old.items ++ iteration) }
{
    add(rules, iterate_id(m))?;
    add(rules, iterate_iterate(m))?;
    add(rules, iter_snd(m))?;
    add(rules, iter_iter(m))?;
    add(rules, iter_env(m))?;
    add(rules, iter_const(m))?;
    add(rules, flat_iterate(m))?;
    add(rules, flat_flat(m))?;
    add(rules, flat_iter(m))?;
    add(rules, iterate_iter(m))?;
    Ok(())
}

/// `iterate(KP(true), id) = id`
fn iterate_id(m: Maker) -> MadeRule
    ensures { MakesRule result iterate_id }
{
    let vars = m.no_vars();
    let input = m.set(m.ty("a"));
    let left = m.iterate(m.known(true), m.id());
    let right = m.id();
    m.funs("iterate_id", vars, input, left, right)
}

/// `(iterate(p, f) o iterate(q, g)) = iterate((q & (p @ g)), (f o g))`
fn iterate_iterate(m: Maker) -> MadeRule
    ensures { MakesRule result iterate_iterate }
{
    let vars = m.pred_var(
        "p",
        m.ty("b"),
        m.fun_var(
            "f",
            m.ty("b"),
            m.ty("c"),
            m.pred_var(
                "q",
                m.ty("a"),
                m.fun_var("g", m.ty("a"), m.ty("b"), m.no_vars()),
            ),
        ),
    );
    let input = m.set(m.ty("a"));
    let left = m.comp(
        m.iterate(m.pred("p"), m.fun("f")),
        m.iterate(m.pred("q"), m.fun("g")),
    );
    let right = m.iterate(
        m.and(m.pred("q"), m.at(m.pred("p"), m.fun("g"))),
        m.comp(m.fun("f"), m.fun("g")),
    );
    m.funs("iterate_iterate", vars, input, left, right)
}

/// `iter((p @ snd), (f o snd)) = (iterate(p, f) o snd)`
fn iter_snd(m: Maker) -> MadeRule
    ensures { MakesRule result iter_snd }
{
    let vars = m.pred_var(
        "p",
        m.ty("b"),
        m.fun_var("f", m.ty("b"), m.ty("c"), m.no_vars()),
    );
    let input = m.pair_type(m.ty("a"), m.set(m.ty("b")));
    let left = m.iter(m.at(m.pred("p"), m.snd()), m.comp(m.fun("f"), m.snd()));
    let right = m.comp(m.iterate(m.pred("p"), m.fun("f")), m.snd());
    m.funs("iter_snd", vars, input, left, right)
}

/// `(iter(p, f) o <fst, iter(q, g)>) = iter((q & (p @ <fst, g>)), (f o <fst, g>))`
fn iter_iter(m: Maker) -> MadeRule
    ensures { MakesRule result iter_iter }
{
    let vars = m.pred_var(
        "p",
        m.pair_type(m.ty("a"), m.ty("c")),
        m.fun_var(
            "f",
            m.pair_type(m.ty("a"), m.ty("c")),
            m.ty("d"),
            m.pred_var(
                "q",
                m.pair_type(m.ty("a"), m.ty("b")),
                m.fun_var(
                    "g",
                    m.pair_type(m.ty("a"), m.ty("b")),
                    m.ty("c"),
                    m.no_vars(),
                ),
            ),
        ),
    );
    let input = m.pair_type(m.ty("a"), m.set(m.ty("b")));
    let left = m.comp(
        m.iter(m.pred("p"), m.fun("f")),
        m.pair(m.fst(), m.iter(m.pred("q"), m.fun("g"))),
    );
    let right = m.iter(
        m.and(m.pred("q"), m.at(m.pred("p"), m.pair(m.fst(), m.fun("g")))),
        m.comp(m.fun("f"), m.pair(m.fst(), m.fun("g"))),
    );
    m.funs("iter_iter", vars, input, left, right)
}

/// `(iter(p, f) o (h * id)) = iter((p @ (h * id)), (f o (h * id)))`
fn iter_env(m: Maker) -> MadeRule
    ensures { MakesRule result iter_env }
{
    let vars = m.pred_var(
        "p",
        m.pair_type(m.ty("b"), m.ty("c")),
        m.fun_var(
            "f",
            m.pair_type(m.ty("b"), m.ty("c")),
            m.ty("d"),
            m.fun_var("h", m.ty("a"), m.ty("b"), m.no_vars()),
        ),
    );
    let input = m.pair_type(m.ty("a"), m.set(m.ty("c")));
    let left = m.comp(m.iter(m.pred("p"), m.fun("f")), m.times(m.fun("h"), m.id()));
    let right = m.iter(
        m.at(m.pred("p"), m.times(m.fun("h"), m.id())),
        m.comp(m.fun("f"), m.times(m.fun("h"), m.id())),
    );
    m.funs("iter_env", vars, input, left, right)
}

/// `(iter(p, f) o <K(x), g>) = (iterate((p @ <K(x), id>), (f o <K(x), id>)) o g)`
fn iter_const(m: Maker) -> MadeRule
    ensures { MakesRule result iter_const }
{
    let vars = m.pred_var(
        "p",
        m.pair_type(m.ty("b"), m.ty("c")),
        m.fun_var(
            "f",
            m.pair_type(m.ty("b"), m.ty("c")),
            m.ty("d"),
            m.const_var(
                "x",
                m.ty("b"),
                m.fun_var("g", m.ty("a"), m.set(m.ty("c")), m.no_vars()),
            ),
        ),
    );
    let input = m.ty("a");
    let left = m.comp(
        m.iter(m.pred("p"), m.fun("f")),
        m.pair(m.always(m.constant("x")), m.fun("g")),
    );
    let right = m.comp(
        m.iterate(
            m.at(m.pred("p"), m.pair(m.always(m.constant("x")), m.id())),
            m.comp(m.fun("f"), m.pair(m.always(m.constant("x")), m.id())),
        ),
        m.fun("g"),
    );
    m.funs("iter_const", vars, input, left, right)
}

/// `(flat o iterate(KP(true), iterate(p, f))) = (iterate(p, f) o flat)`
fn flat_iterate(m: Maker) -> MadeRule
    ensures { MakesRule result flat_iterate }
{
    let vars = m.pred_var(
        "p",
        m.ty("a"),
        m.fun_var("f", m.ty("a"), m.ty("b"), m.no_vars()),
    );
    let input = m.set(m.set(m.ty("a")));
    let left = m.comp(
        m.flat(),
        m.iterate(m.known(true), m.iterate(m.pred("p"), m.fun("f"))),
    );
    let right = m.comp(m.iterate(m.pred("p"), m.fun("f")), m.flat());
    m.funs("flat_iterate", vars, input, left, right)
}

/// `(flat o flat) = (flat o iterate(KP(true), flat))`
fn flat_flat(m: Maker) -> MadeRule
    ensures { MakesRule result flat_flat }
{
    let vars = m.no_vars();
    let input = m.set(m.set(m.set(m.ty("a"))));
    let left = m.comp(m.flat(), m.flat());
    let right = m.comp(m.flat(), m.iterate(m.known(true), m.flat()));
    m.funs("flat_flat", vars, input, left, right)
}

/// `(flat o iter(KP(true), iter(p, f))) = (iter(p, f) o <fst, (flat o snd)>)`
fn flat_iter(m: Maker) -> MadeRule
    ensures { MakesRule result flat_iter }
{
    let vars = m.pred_var(
        "p",
        m.pair_type(m.ty("a"), m.ty("b")),
        m.fun_var(
            "f",
            m.pair_type(m.ty("a"), m.ty("b")),
            m.ty("c"),
            m.no_vars(),
        ),
    );
    let input = m.pair_type(m.ty("a"), m.set(m.set(m.ty("b"))));
    let left = m.comp(
        m.flat(),
        m.iter(m.known(true), m.iter(m.pred("p"), m.fun("f"))),
    );
    let right = m.comp(
        m.iter(m.pred("p"), m.fun("f")),
        m.pair(m.fst(), m.comp(m.flat(), m.snd())),
    );
    m.funs("flat_iter", vars, input, left, right)
}

/// `(iterate(q, g) o iter(p, f)) = iter((p & (q @ f)), (g o f))`
fn iterate_iter(m: Maker) -> MadeRule
    ensures { MakesRule result iterate_iter }
{
    let vars = m.pred_var(
        "p",
        m.pair_type(m.ty("a"), m.ty("b")),
        m.fun_var(
            "f",
            m.pair_type(m.ty("a"), m.ty("b")),
            m.ty("c"),
            m.pred_var(
                "q",
                m.ty("c"),
                m.fun_var("g", m.ty("c"), m.ty("d"), m.no_vars()),
            ),
        ),
    );
    let input = m.pair_type(m.ty("a"), m.set(m.ty("b")));
    let left = m.comp(
        m.iterate(m.pred("q"), m.fun("g")),
        m.iter(m.pred("p"), m.fun("f")),
    );
    let right = m.iter(
        m.and(m.pred("p"), m.at(m.pred("q"), m.fun("f"))),
        m.comp(m.fun("g"), m.fun("f")),
    );
    m.funs("iterate_iter", vars, input, left, right)
}

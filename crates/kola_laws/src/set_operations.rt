//! The laws of union, intersection and difference.

ghost use Rattle.std.specs.Prelude.{◌≡◌, ◌++◌, map, OnOk};
ghost use Rattle.kola_rule.specs.RuleViews.{rule_tree};
ghost use Rattle.kola_laws.specs.SetOperations.{set_operations, iterate_union, iterate_or, iterate_and_not};
ghost use Rattle.kola_laws.specs.SetOperations.{iterate_and, union_same, union_comm};
ghost use Rattle.kola_laws.specs.Making.{MakesRule};

use crate::maker::{MadeRule, Maker, add};
use kola_core::Memory;
use kola_rule::Rule;

/// Adds these laws at the end of rules.
pub fn set_operations(m: Maker, rules: &mut Vec<Rule>) -> Result<(), Memory>
    ensures { OnOk result (map rule_tree rules.new.items ≡ map rule_tree rules.old.items ++ set_operations) }
{
    add(rules, iterate_union(m))?;
    add(rules, iterate_or(m))?;
    add(rules, iterate_and_not(m))?;
    add(rules, iterate_and(m))?;
    add(rules, union_same(m))?;
    add(rules, union_comm(m))?;
    Ok(())
}

/// `(iterate(p, f) o union) = (union o (iterate(p, f) * iterate(p, f)))`
fn iterate_union(m: Maker) -> MadeRule
    ensures { MakesRule result iterate_union }
{
    let vars = m.pred_var(
        "p",
        m.ty("a"),
        m.fun_var("f", m.ty("a"), m.ty("b"), m.no_vars()),
    );
    let input = m.pair_type(m.set(m.ty("a")), m.set(m.ty("a")));
    let left = m.comp(m.iterate(m.pred("p"), m.fun("f")), m.union());
    let right = m.comp(
        m.union(),
        m.times(
            m.iterate(m.pred("p"), m.fun("f")),
            m.iterate(m.pred("p"), m.fun("f")),
        ),
    );
    m.funs("iterate_union", vars, input, left, right)
}

/// `iterate((p | q), f) = (union o <iterate(p, f), iterate(q, f)>)`
fn iterate_or(m: Maker) -> MadeRule
    ensures { MakesRule result iterate_or }
{
    let vars = m.pred_var(
        "p",
        m.ty("a"),
        m.pred_var(
            "q",
            m.ty("a"),
            m.fun_var("f", m.ty("a"), m.ty("b"), m.no_vars()),
        ),
    );
    let input = m.set(m.ty("a"));
    let left = m.iterate(m.or(m.pred("p"), m.pred("q")), m.fun("f"));
    let right = m.comp(
        m.union(),
        m.pair(
            m.iterate(m.pred("p"), m.fun("f")),
            m.iterate(m.pred("q"), m.fun("f")),
        ),
    );
    m.funs("iterate_or", vars, input, left, right)
}

/// `iterate((p & ~q), id) = (minus o <iterate(p, id), iterate(q, id)>)`
fn iterate_and_not(m: Maker) -> MadeRule
    ensures { MakesRule result iterate_and_not }
{
    let vars = m.pred_var("p", m.ty("a"), m.pred_var("q", m.ty("a"), m.no_vars()));
    let input = m.set(m.ty("a"));
    let left = m.iterate(m.and(m.pred("p"), m.not(m.pred("q"))), m.id());
    let right = m.comp(
        m.minus(),
        m.pair(
            m.iterate(m.pred("p"), m.id()),
            m.iterate(m.pred("q"), m.id()),
        ),
    );
    m.funs("iterate_and_not", vars, input, left, right)
}

/// `iterate((p & q), id) = (isect o <iterate(p, id), iterate(q, id)>)`
fn iterate_and(m: Maker) -> MadeRule
    ensures { MakesRule result iterate_and }
{
    let vars = m.pred_var("p", m.ty("a"), m.pred_var("q", m.ty("a"), m.no_vars()));
    let input = m.set(m.ty("a"));
    let left = m.iterate(m.and(m.pred("p"), m.pred("q")), m.id());
    let right = m.comp(
        m.isect(),
        m.pair(
            m.iterate(m.pred("p"), m.id()),
            m.iterate(m.pred("q"), m.id()),
        ),
    );
    m.funs("iterate_and", vars, input, left, right)
}

/// `(union o <f, f>) = f`
fn union_same(m: Maker) -> MadeRule
    ensures { MakesRule result union_same }
{
    let vars = m.fun_var("f", m.ty("a"), m.set(m.ty("b")), m.no_vars());
    let input = m.ty("a");
    let left = m.comp(m.union(), m.pair(m.fun("f"), m.fun("f")));
    let right = m.fun("f");
    m.funs("union_same", vars, input, left, right)
}

/// `(union o <snd, fst>) = union`
fn union_comm(m: Maker) -> MadeRule
    ensures { MakesRule result union_comm }
{
    let vars = m.no_vars();
    let input = m.pair_type(m.set(m.ty("a")), m.set(m.ty("a")));
    let left = m.comp(m.union(), m.pair(m.snd(), m.fst()));
    let right = m.union();
    m.funs("union_comm", vars, input, left, right)
}

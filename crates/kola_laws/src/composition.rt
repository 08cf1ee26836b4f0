//! The laws of composition, pairs and constants.

ghost use Rattle.std.specs.Prelude.{◌≡◌, ◌++◌, map, OnOk};
ghost use Rattle.kola_rule.specs.RuleViews.{rule_tree};
ghost use Rattle.kola_laws.specs.Composition.{composition, id_left, id_right, assoc, fst_pair, snd_pair, pair_eta};
ghost use Rattle.kola_laws.specs.Composition.{pair_id, pair_comp, times_def, times_pair, fst_times, snd_times};
ghost use Rattle.kola_laws.specs.Composition.{const_comp, curry_def};
ghost use Rattle.kola_laws.specs.Making.{MakesRule};

use crate::maker::{MadeRule, Maker, add};
use kola_core::Memory;
use kola_rule::Rule;

/// Adds these laws at the end of rules.
pub fn composition(m: Maker, rules: &mut Vec<Rule>) -> Result<(), Memory>
    ensures { OnOk result (map rule_tree rules.new.items ≡ map rule_tree rules.old.items ++ composition) }
{
    add(rules, id_left(m))?;
    add(rules, id_right(m))?;
    add(rules, assoc(m))?;
    add(rules, fst_pair(m))?;
    add(rules, snd_pair(m))?;
    add(rules, pair_eta(m))?;
    add(rules, pair_id(m))?;
    add(rules, pair_comp(m))?;
    add(rules, times_def(m))?;
    add(rules, times_pair(m))?;
    add(rules, fst_times(m))?;
    add(rules, snd_times(m))?;
    add(rules, const_comp(m))?;
    add(rules, curry_def(m))?;
    Ok(())
}

/// `(id o f) = f`
fn id_left(m: Maker) -> MadeRule
    ensures { MakesRule result id_left }
{
    let vars = m.fun_var("f", m.ty("a"), m.ty("b"), m.no_vars());
    let input = m.ty("a");
    let left = m.comp(m.id(), m.fun("f"));
    let right = m.fun("f");
    m.funs("id_left", vars, input, left, right)
}

/// `(f o id) = f`
fn id_right(m: Maker) -> MadeRule
    ensures { MakesRule result id_right }
{
    let vars = m.fun_var("f", m.ty("a"), m.ty("b"), m.no_vars());
    let input = m.ty("a");
    let left = m.comp(m.fun("f"), m.id());
    let right = m.fun("f");
    m.funs("id_right", vars, input, left, right)
}

/// `((f o g) o h) = (f o (g o h))`
fn assoc(m: Maker) -> MadeRule
    ensures { MakesRule result assoc }
{
    let vars = m.fun_var(
        "f",
        m.ty("c"),
        m.ty("d"),
        m.fun_var(
            "g",
            m.ty("b"),
            m.ty("c"),
            m.fun_var("h", m.ty("a"), m.ty("b"), m.no_vars()),
        ),
    );
    let input = m.ty("a");
    let left = m.comp(m.comp(m.fun("f"), m.fun("g")), m.fun("h"));
    let right = m.comp(m.fun("f"), m.comp(m.fun("g"), m.fun("h")));
    m.funs("assoc", vars, input, left, right)
}

/// `(fst o <f, g>) = f`
fn fst_pair(m: Maker) -> MadeRule
    ensures { MakesRule result fst_pair }
{
    let vars = m.fun_var(
        "f",
        m.ty("a"),
        m.ty("b"),
        m.fun_var("g", m.ty("a"), m.ty("c"), m.no_vars()),
    );
    let input = m.ty("a");
    let left = m.comp(m.fst(), m.pair(m.fun("f"), m.fun("g")));
    let right = m.fun("f");
    m.funs("fst_pair", vars, input, left, right)
}

/// `(snd o <f, g>) = g`
fn snd_pair(m: Maker) -> MadeRule
    ensures { MakesRule result snd_pair }
{
    let vars = m.fun_var(
        "f",
        m.ty("a"),
        m.ty("b"),
        m.fun_var("g", m.ty("a"), m.ty("c"), m.no_vars()),
    );
    let input = m.ty("a");
    let left = m.comp(m.snd(), m.pair(m.fun("f"), m.fun("g")));
    let right = m.fun("g");
    m.funs("snd_pair", vars, input, left, right)
}

/// `<(fst o f), (snd o f)> = f`
fn pair_eta(m: Maker) -> MadeRule
    ensures { MakesRule result pair_eta }
{
    let vars = m.fun_var(
        "f",
        m.ty("a"),
        m.pair_type(m.ty("b"), m.ty("c")),
        m.no_vars(),
    );
    let input = m.ty("a");
    let left = m.pair(m.comp(m.fst(), m.fun("f")), m.comp(m.snd(), m.fun("f")));
    let right = m.fun("f");
    m.funs("pair_eta", vars, input, left, right)
}

/// `<fst, snd> = id`
fn pair_id(m: Maker) -> MadeRule
    ensures { MakesRule result pair_id }
{
    let vars = m.no_vars();
    let input = m.pair_type(m.ty("a"), m.ty("b"));
    let left = m.pair(m.fst(), m.snd());
    let right = m.id();
    m.funs("pair_id", vars, input, left, right)
}

/// `(<f, g> o h) = <(f o h), (g o h)>`
fn pair_comp(m: Maker) -> MadeRule
    ensures { MakesRule result pair_comp }
{
    let vars = m.fun_var(
        "f",
        m.ty("b"),
        m.ty("c"),
        m.fun_var(
            "g",
            m.ty("b"),
            m.ty("d"),
            m.fun_var("h", m.ty("a"), m.ty("b"), m.no_vars()),
        ),
    );
    let input = m.ty("a");
    let left = m.comp(m.pair(m.fun("f"), m.fun("g")), m.fun("h"));
    let right = m.pair(
        m.comp(m.fun("f"), m.fun("h")),
        m.comp(m.fun("g"), m.fun("h")),
    );
    m.funs("pair_comp", vars, input, left, right)
}

/// `(f * g) = <(f o fst), (g o snd)>`
fn times_def(m: Maker) -> MadeRule
    ensures { MakesRule result times_def }
{
    let vars = m.fun_var(
        "f",
        m.ty("a"),
        m.ty("c"),
        m.fun_var("g", m.ty("b"), m.ty("d"), m.no_vars()),
    );
    let input = m.pair_type(m.ty("a"), m.ty("b"));
    let left = m.times(m.fun("f"), m.fun("g"));
    let right = m.pair(m.comp(m.fun("f"), m.fst()), m.comp(m.fun("g"), m.snd()));
    m.funs("times_def", vars, input, left, right)
}

/// `((f * g) o <h, k>) = <(f o h), (g o k)>`
fn times_pair(m: Maker) -> MadeRule
    ensures { MakesRule result times_pair }
{
    let vars = m.fun_var(
        "f",
        m.ty("b"),
        m.ty("d"),
        m.fun_var(
            "g",
            m.ty("c"),
            m.ty("e"),
            m.fun_var(
                "h",
                m.ty("a"),
                m.ty("b"),
                m.fun_var("k", m.ty("a"), m.ty("c"), m.no_vars()),
            ),
        ),
    );
    let input = m.ty("a");
    let left = m.comp(
        m.times(m.fun("f"), m.fun("g")),
        m.pair(m.fun("h"), m.fun("k")),
    );
    let right = m.pair(
        m.comp(m.fun("f"), m.fun("h")),
        m.comp(m.fun("g"), m.fun("k")),
    );
    m.funs("times_pair", vars, input, left, right)
}

/// `(fst o (f * g)) = (f o fst)`
fn fst_times(m: Maker) -> MadeRule
    ensures { MakesRule result fst_times }
{
    let vars = m.fun_var(
        "f",
        m.ty("a"),
        m.ty("c"),
        m.fun_var("g", m.ty("b"), m.ty("d"), m.no_vars()),
    );
    let input = m.pair_type(m.ty("a"), m.ty("b"));
    let left = m.comp(m.fst(), m.times(m.fun("f"), m.fun("g")));
    let right = m.comp(m.fun("f"), m.fst());
    m.funs("fst_times", vars, input, left, right)
}

/// `(snd o (f * g)) = (g o snd)`
fn snd_times(m: Maker) -> MadeRule
    ensures { MakesRule result snd_times }
{
    let vars = m.fun_var(
        "f",
        m.ty("a"),
        m.ty("c"),
        m.fun_var("g", m.ty("b"), m.ty("d"), m.no_vars()),
    );
    let input = m.pair_type(m.ty("a"), m.ty("b"));
    let left = m.comp(m.snd(), m.times(m.fun("f"), m.fun("g")));
    let right = m.comp(m.fun("g"), m.snd());
    m.funs("snd_times", vars, input, left, right)
}

/// `(K(x) o f) = K(x)`
fn const_comp(m: Maker) -> MadeRule
    ensures { MakesRule result const_comp }
{
    let vars = m.fun_var(
        "f",
        m.ty("a"),
        m.ty("b"),
        m.const_var("x", m.ty("c"), m.no_vars()),
    );
    let input = m.ty("a");
    let left = m.comp(m.always(m.constant("x")), m.fun("f"));
    let right = m.always(m.constant("x"));
    m.funs("const_comp", vars, input, left, right)
}

/// `C(f, x) = (f o <K(x), id>)`
fn curry_def(m: Maker) -> MadeRule
    ensures { MakesRule result curry_def }
{
    let vars = m.fun_var(
        "f",
        m.pair_type(m.ty("c"), m.ty("a")),
        m.ty("b"),
        m.const_var("x", m.ty("c"), m.no_vars()),
    );
    let input = m.ty("a");
    let left = m.partial(m.fun("f"), m.constant("x"));
    let right = m.comp(m.fun("f"), m.pair(m.always(m.constant("x")), m.id()));
    m.funs("curry_def", vars, input, left, right)
}

//! Which rules may fire: those that put in no variable that their pattern side lacks.

ghost use Rattle.std.specs.Prelude.{◌≡◌, map, IfOk, OnOk};
ghost use Rattle.std.specs.List.{list_all};
ghost use Rattle.kola_term.specs.Parts.{sub_tree};
ghost use Rattle.kola_rule.specs.RuleViews.{rule_tree};
ghost use Rattle.kola_match.specs.Instances.{pattern_side, other_side};
ghost use Rattle.coko_plan.specs.Variables.{variables, can_fire};
ghost use Rattle.coko_plan.specs.Working.Seen.{AddsName, Sees, has_seen, own, directions};

use kola_core::{Memory, Name, NameTable};
use kola_rule::{Rule, RuleTable};
use kola_term::{Children, Const, Fun, Pred, SubTerm};
use std::alloc::Global;

/// The names of the variables that were seen, each kind apart.
#[derive(Drop)]
pub(crate) struct Variables {
    funs: NameTable,
    preds: NameTable,
    consts: NameTable,
}

/// Adds a name to a table, where it is not in it.
pub(crate) fn add_name(names: &mut NameTable, name: &Name) -> Result<(), Memory>
    ensures { OnOk result (AddsName names.old names.new name.now) }
{
    names.add(name.as_text())?;
    Ok(())
}

/// Adds the node, where it is a variable.
fn see_node(part: SubTerm, seen: &mut Variables) -> Result<(), Memory>
    ensures { OnOk result (Sees seen.old seen.new (own (sub_tree part.entry))) }
{
    match part {
        SubTerm::F(Fun::Meta(name)) => add_name(&mut seen.funs, name),
        SubTerm::P(Pred::Meta(name)) => add_name(&mut seen.preds, name),
        SubTerm::C(Const::Meta(name)) => add_name(&mut seen.consts, name),
        _ => Ok(()),
    }
}

/// Adds the variables of a part.
#[tactic(auto, using(kola_term::proofs::ByChildren::by_children))]
fn see(part: SubTerm, seen: &mut Variables) -> Result<(), Memory>
    ensures { OnOk result (Sees seen.old seen.new (variables (sub_tree part.entry))) }
{
    see_node(part, seen)?;
    match part.children() {
        Children::Leaf => Ok(()),
        Children::One(a) => see(a, seen),
        Children::Two(a, b) => {
            see(a, seen)?;
            see(b, seen)
        }
        Children::Three(a, b, c) => {
            see(a, seen)?;
            see(b, seen)?;
            see(c, seen)
        }
    }
}

/// Whether the node is no variable, or one that was seen.
fn passes(part: SubTerm, seen: &Variables) -> bool
    ensures { result ≡ list_all (has_seen seen.now) (own (sub_tree part.entry)) }
{
    match part {
        SubTerm::F(Fun::Meta(name)) => seen.funs.holds(name.as_text()),
        SubTerm::P(Pred::Meta(name)) => seen.preds.holds(name.as_text()),
        SubTerm::C(Const::Meta(name)) => seen.consts.holds(name.as_text()),
        _ => true,
    }
}

/// Whether each variable of a part was seen.
#[tactic(auto, using(kola_term::proofs::ByChildren::by_children))]
fn all_seen(part: SubTerm, seen: &Variables) -> bool
    ensures { result ≡ list_all (has_seen seen.now) (variables (sub_tree part.entry)) }
{
    let own = passes(part, seen);
    match part.children() {
        Children::Leaf => own,
        Children::One(a) => own & all_seen(a, seen),
        Children::Two(a, b) => {
            let first = all_seen(a, seen);
            let second = all_seen(b, seen);
            own & (first & second)
        }
        Children::Three(a, b, c) => {
            let first = all_seen(a, seen);
            let second = all_seen(b, seen);
            let third = all_seen(c, seen);
            own & (first & (second & third))
        }
    }
}

/// The side that is matched, and the one that is put in.
fn sides<'a>(rule: &'a Rule, rev: bool) -> (SubTerm<'a>, SubTerm<'a>)
    ensures pattern { sub_tree result.0 ≡ pattern_side (rule_tree rule.now) rev }
    ensures other { sub_tree result.1 ≡ other_side (rule_tree rule.now) rev }
{
    if rev {
        (rule.right.as_part(), rule.left.as_part())
    } else {
        (rule.left.as_part(), rule.right.as_part())
    }
}

/// Whether the rule may fire in a direction.
fn can_fire(alloc: Global, rule: &Rule, rev: bool) -> Result<bool, Memory>
    ensures { IfOk result (λ b. b ≡ can_fire (rule_tree rule.now) rev) }
{
    let mut seen = Variables {
        funs: NameTable::new(alloc),
        preds: NameTable::new(alloc),
        consts: NameTable::new(alloc),
    };
    let (pattern, other) = sides(rule, rev);
    see(pattern, &mut seen)?;
    Ok(all_seen(other, &seen))
}

/// Of each rule of a table, whether it may fire from left to right, and from right to left.
pub(crate) fn directions(alloc: Global, rules: &RuleTable) -> Result<Vec<(bool, bool)>, Memory>
    ensures { IfOk result (λ v. v.items ≡ map directions (map rule_tree rules.now)) }
{
    let mut all = Vec::new(alloc);
    for n in 0..rules.len() {
        let Some(rule) = rules.get(n) else {
            return Ok(all);
        };
        let forwards = can_fire(alloc, rule, false)?;
        let backwards = can_fire(alloc, rule, true)?;
        all.push((forwards, backwards))?;
    }
    Ok(all)
}

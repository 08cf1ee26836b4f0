//! The table of the laws.

ghost use Rattle.std.specs.Prelude.{◌≡◌, [], map, IfOk, OnOk};
ghost use Rattle.kola_rule.specs.RuleViews.{rule_tree};
ghost use Rattle.kola_laws.specs.Laws.{laws};

use crate::choice::choice;
use crate::comparison::comparison;
use crate::composition::composition;
use crate::injectivity::injectivity;
use crate::iteration::iteration;
use crate::joining::joining;
use crate::maker::Maker;
use crate::nesting::nesting;
use crate::quantifiers::quantifiers;
use crate::restriction::restriction;
use crate::set_operations::set_operations;
use crate::truth::truth;
use kola_core::Memory;
use kola_rule::{Rule, RuleTable};
use std::alloc::Global;

/// Adds the laws to no rules.
fn add_laws(m: Maker, rules: &mut Vec<Rule>) -> Result<(), Memory>
    ensures { map rule_tree rules.old.items ≡ [] → OnOk result (map rule_tree rules.new.items ≡ laws) }
{
    composition(m, rules)?;
    choice(m, rules)?;
    restriction(m, rules)?;
    truth(m, rules)?;
    comparison(m, rules)?;
    iteration(m, rules)?;
    joining(m, rules)?;
    nesting(m, rules)?;
    quantifiers(m, rules)?;
    set_operations(m, rules)?;
    injectivity(m, rules)?;
    Ok(())
}

/// The table of the 88 laws, in their order.
pub fn laws(alloc: Global) -> Result<RuleTable, Memory>
    ensures { IfOk result (λ t. map rule_tree t ≡ laws) }
{
    let mut rules = Vec::new(alloc);
    add_laws(Maker { alloc }, &mut rules)?;
    RuleTable::from_rules(alloc, rules)
}

//! Rules by their names.

ghost use Rattle.std.specs.Prelude.{◌≡◌, [], ◌∷◌, ◌++◌, map, None, OnOk, OnErr, IfErr};
ghost use Rattle.std.specs.Option.{option_map};
ghost use Rattle.kola_rule.specs.RuleViews.{rule_tree, rule_at};
ghost use Rattle.kola_proof.specs.Steps.{rule_named};
ghost use Rattle.kola_proof.specs.declared.fault.AdmitFault.TheVariants as fault;

use crate::fault::AdmitFault;
use kola_core::{Memory, Name};
use kola_rule::{Draft, Rule, RuleTable};

/// The rule of the name; `None` where no rule has it. It takes constant expected time.
pub(crate) fn rule_named<'a>(rules: &'a RuleTable, name: &Name) -> Option<&'a Rule>
    ensures { option_map rule_at result ≡ rule_named (map rule_tree rules.now) name.now }
{
    let Some(place) = rules.find(name) else {
        return None;
    };
    rules.get(place)
}

/// Adds the rule of a draft at the end, and lets its proof go. Where memory is wanted, the draft is handed back.
fn pushed(rules: &mut RuleTable, draft: Draft) -> Result<(), (Memory, Draft)>
    requires { rule_named (map rule_tree rules.old) draft.rule.name ≡ None }
    ensures ok { OnOk result (rules.new ≡ rules.old ++ draft.rule ∷ []) }
    ensures err { OnErr result (rules.new ≡ rules.old) }
    ensures handed_back { IfErr result (λ e. e.1 ≡ draft) }
{
    let Draft { rule, first, steps } = draft;
    match rules.push(rule) {
        Ok(()) => Ok(()),
        Err((e, rule)) => Err((e, Draft { rule, first, steps })),
    }
}

/// The same, with the fault of a draft that is not accepted.
pub(crate) fn add(rules: &mut RuleTable, draft: Draft) -> Result<(), AdmitFault>
    requires { rule_named (map rule_tree rules.old) draft.rule.name ≡ None }
    ensures ok { OnOk result (rules.new ≡ rules.old ++ draft.rule ∷ []) }
    ensures err { OnErr result (rules.new ≡ rules.old) }
    ensures handed_back { IfErr result (λ e. e ≡ fault.Memory draft) }
{
    pushed(rules, draft)?;
    Ok(())
}

//! The check of a draft.

ghost use Rattle.std.specs.Prelude.{◌≡◌, ◌↔◌, true, map};
ghost use Rattle.kola_values.specs.Sets.{Each};
ghost use Rattle.kola_values.specs.Views.{type_tree};
ghost use Rattle.kola_term.specs.ContextView.{context_of};
ghost use Rattle.kola_term.specs.TermView.{term_tree};
ghost use Rattle.kola_rule.specs.RuleViews.{rule_tree, step_tree, draft_tree};
ghost use Rattle.kola_match.specs.RuleOk.{RuleOk, SidesFit};
ghost use Rattle.kola_proof.specs.Checks.{numbered, AreSteps, IsCheck};

use crate::fault::{CheckFault, StepFault, StepWhy};
use crate::step::check_step;
use crate::table::rule_named;
use kola_match::{rule_ok, same_part};
use kola_rule::{Draft, Rule, RuleTable, Step};
use kola_schema::Schema;
use kola_term::Term;
use std::alloc::Global;

/// Whether two terms are the same.
fn same_term(a: &Term, b: &Term) -> bool
    ensures { (result ≡ true) ↔ (term_tree a.now ≡ term_tree b.now) }
{
    same_part(a.as_part(), b.as_part())
}

/// The fault of a step, with the step's number.
fn numbered(fault: StepFault, step: usize) -> CheckFault
    ensures { result ≡ numbered fault step }
{
    match fault {
        StepFault::Bad(why) => CheckFault::At(step, why),
        StepFault::Memory => CheckFault::Memory,
    }
}

/// Whether the steps lead from the first term of the proof of a rule to its right side; else their first fault.
fn check_steps(
    alloc: Global,
    schema: &Schema,
    rules: &RuleTable,
    rule: &Rule,
    first: &Term,
    steps: &[Step],
) -> Result<(), CheckFault>
    requires rules { Each (RuleOk schema.now) (map rule_tree rules.now) }
    requires fits { SidesFit schema.now (context_of rule.now.vars) (type_tree rule.now.input)
        (term_tree rule.now.left) (term_tree first.now) }
    ensures { AreSteps schema.now (map rule_tree rules.now) (rule_tree rule.now) (term_tree first.now)
        (map step_tree steps.now) result }
{
    let mut before = first;
    for i in 0..steps.len() {
        let step = &steps[i];
        if let Err(fault) = check_step(alloc, schema, rules, rule, before, step) {
            return Err(numbered(fault, i + 1));
        }
        before = &step.term;
    }
    if same_term(before, &rule.right) {
        Ok(())
    } else {
        Err(CheckFault::At(steps.len(), StepWhy::LastIsNotRight))
    }
}

/// Whether a draft is valid by the rules of the table; else its first fault.
pub(crate) fn check(
    alloc: Global,
    schema: &Schema,
    rules: &RuleTable,
    draft: &Draft,
) -> Result<(), CheckFault>
    requires { Each (RuleOk schema.now) (map rule_tree rules.now) }
    ensures { IsCheck schema.now (map rule_tree rules.now) (draft_tree draft.now) result }
{
    if let Some(_) = rule_named(rules, &draft.rule.name) {
        return Err(CheckFault::At(0, StepWhy::NameTaken));
    }
    if !rule_ok(alloc, schema, &draft.rule)? {
        return Err(CheckFault::At(0, StepWhy::RuleIllTyped));
    }
    if !same_term(&draft.first, &draft.rule.left) {
        return Err(CheckFault::At(0, StepWhy::FirstIsNotLeft));
    }
    check_steps(
        alloc,
        schema,
        rules,
        &draft.rule,
        &draft.first,
        draft.steps.as_slice(),
    )
}

//! One step of a proof.

ghost use Rattle.std.specs.Prelude.{◌≡◌, map, Some};
ghost use Rattle.kola_values.specs.Sets.{Each};
ghost use Rattle.kola_values.specs.Views.{type_tree};
ghost use Rattle.kola_term.specs.ContextView.{context_of};
ghost use Rattle.kola_term.specs.Places.{Typed, place};
ghost use Rattle.kola_term.specs.TermView.{term_tree};
ghost use Rattle.kola_rule.specs.RuleViews.{rule_tree, step_tree};
ghost use Rattle.kola_match.specs.RuleOk.{RuleOk, SidesFit};
ghost use Rattle.kola_proof.specs.Steps.{rule_named};
ghost use Rattle.kola_proof.specs.Checks.{IsInputAt, IsByLaw, IsStep};

use crate::conditions::are_conditions_shown;
use crate::fault::{StepFault, StepWhy};
use crate::outside::parts_at;
use crate::table::rule_named;
use kola_core::Path;
use kola_match::{match_both, sides_fit};
use kola_rule::{Rule, RuleTable, Step};
use kola_schema::Schema;
use kola_term::{PlaceFault, Term, input_at};
use kola_values::Ty;
use std::alloc::Global;

/// The input type at the path of a term, where a function or a predicate stands there.
fn place_input(
    alloc: Global,
    schema: &Schema,
    rule: &Rule,
    before: &Term,
    path: &Path,
) -> Result<Ty, StepFault>
    requires { Typed schema.now (context_of rule.now.vars) (term_tree before.now) (type_tree rule.now.input) }
    ensures { IsInputAt schema.now (context_of rule.now.vars) (type_tree rule.now.input)
        (term_tree before.now) path.now result }
{
    match input_at(alloc, schema, &rule.vars, before, &rule.input, path) {
        Ok(input) => Ok(input),
        Err(PlaceFault::NoSuchPath) | Err(PlaceFault::WrongKind) => {
            Err(StepFault::Bad(StepWhy::NoSuchPath))
        }
        Err(PlaceFault::Memory) => Err(StepFault::Memory),
    }
}

/// Whether a law has an instance by which the step goes on, and its conditions are shown. The input type is that of the
/// place.
fn check_instance(
    alloc: Global,
    schema: &Schema,
    rule: &Rule,
    law: &Rule,
    before: &Term,
    step: &Step,
    input: &Ty,
) -> Result<(), StepFault>
    requires law { RuleOk schema.now (rule_tree law.now) }
    requires before { Typed schema.now (context_of rule.now.vars) (term_tree before.now) (type_tree rule.now.input) }
    requires after { Typed schema.now (context_of rule.now.vars) (term_tree step.now.term) (type_tree rule.now.input) }
    requires input { place schema.now (context_of rule.now.vars) (term_tree before.now) (type_tree rule.now.input)
        step.now.path ≡ Some (type_tree input.now) }
    ensures { IsByLaw schema.now (rule_tree rule.now) (rule_tree law.now) (term_tree before.now) (step_tree step.now)
        result }
{
    schema.well_formed();
    let Some((from, to)) = parts_at(before.as_part(), step.term.as_part(), step.path.as_slice())
    else {
        return Err(StepFault::Bad(StepWhy::NoInstance));
    };
    let Some(s) = match_both(alloc, schema, &rule.vars, law, step.rev, from, to, input)? else {
        return Err(StepFault::Bad(StepWhy::NoInstance));
    };
    if !are_conditions_shown(alloc, schema, rule, law, &s)? {
        return Err(StepFault::Bad(StepWhy::ConditionNotShown));
    }
    Ok(())
}

/// Whether a step goes on from a term of the proof of a rule, by a rule of the table; else what is wrong with it first.
/// The step's term is typed once beside the one before, compared with it once outside of the path, and one instance is
/// tried.
pub(crate) fn check_step(
    alloc: Global,
    schema: &Schema,
    rules: &RuleTable,
    rule: &Rule,
    before: &Term,
    step: &Step,
) -> Result<(), StepFault>
    requires rules { Each (RuleOk schema.now) (map rule_tree rules.now) }
    requires fits { SidesFit schema.now (context_of rule.now.vars) (type_tree rule.now.input)
        (term_tree rule.now.left) (term_tree before.now) }
    ensures { IsStep schema.now (map rule_tree rules.now) (rule_tree rule.now) (term_tree before.now)
        (step_tree step.now) result }
{
    let Some(law) = rule_named(rules, &step.law) else {
        return Err(StepFault::Bad(StepWhy::UnknownLaw));
    };
    let input = match place_input(alloc, schema, rule, before, &step.path) {
        Ok(input) => input,
        Err(fault) => return Err(fault),
    };
    if !sides_fit(alloc, schema, &rule.vars, before, &step.term, &rule.input)? {
        return Err(StepFault::Bad(StepWhy::StepIllTyped));
    }
    check_instance(alloc, schema, rule, law, before, step, &input)
}

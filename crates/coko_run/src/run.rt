//! Runs of plans.

ghost use Rattle.std.specs.Prelude.{◌≡◌, ◌+◌, ◌-◌, ◌<◌, ◌≤◌, ◌^◌, List, [], map, true, IfOk};
ghost use Rattle.kola_values.specs.Types.{TypeTree, TUnit};
ghost use Rattle.kola_values.specs.Sets.{Each};
ghost use Rattle.kola_term.specs.Terms.{TermF};
ghost use Rattle.kola_term.specs.TermView.{fun_tree, term_tree};
ghost use Rattle.kola_term.specs.Agreement.{SameKind};
ghost use Rattle.kola_term.specs.Faults.{Fits};
ghost use Rattle.kola_rule.specs.RuleViews.{rule_tree};
ghost use Rattle.kola_match.specs.Holding.{Holds};
ghost use Rattle.kola_match.specs.RuleOk.{RuleOk};
ghost use Rattle.coko_plan.specs.Entries.{table, stands_for};
ghost use Rattle.coko_plan.specs.EntryViews.{entries_of, start_of};
ghost use Rattle.coko_plan.specs.Plans.{EntryFor, PlanFor};
ghost use Rattle.coko_run.specs.Outcomes.{Event};
ghost use Rattle.coko_run.specs.Runs.{Do};
ghost use Rattle.coko_run.specs.Moves.{Reached};
ghost use Rattle.coko_run.specs.Weights.{Steps};
ghost use Rattle.coko_run.specs.Firing.{world, FitsUnit};
ghost use Rattle.coko_run.specs.Claims.{Good};
ghost use Rattle.coko_run.specs.Views.{notes, begun, is_end, conf};
ghost use Rattle.coko_run.specs.Answers.{Answers, Reports, IsFun, end_now, ok_now};

use crate::machine::{Held, Job, Log, Now};
use crate::moves::{advance, is_over};
use crate::outcome::{End, Outcome};
use coko_plan::Plan;
use kola_core::{Items, Memory};
use kola_proof::Accepted;
use kola_rule::RuleTable;
use kola_schema::Schema;
use kola_term::{Fun, Term};
use std::alloc::Global;

/// Moves until one takes a step, or to the end.
fn until_step(
    alloc: Global,
    schema: &Schema,
    rules: &RuleTable,
    plan: &Plan,
    m: &mut Held,
    now: Now,
) -> Result<Now, Memory>
    requires rules { Each (RuleOk schema.now) (map rule_tree rules.now) }
    requires fires { Each (EntryFor (map rule_tree rules.now)) (entries_of plan.now) }
    requires fits { FitsUnit schema.now (term_tree m.old.whole.value) }
    requires room { m.old.log.count + m.old.left < 2 ^ 64 }
    ensures { IfOk result (λ s. Steps (world schema.now (map rule_tree rules.now))
        (conf (table (entries_of plan.now)) m.old now)
        (conf (table (entries_of plan.now)) m.new s)) }
{
    let before = m.left;
    let mut at = now;
    'moves: loop {
        at = advance(alloc, schema, rules, plan, m, at)?;
        if is_over(&at) {
            return Ok(at);
        }
        if m.left < before {
            return Ok(at);
        }
    }
}

/// What the machine has at the beginning.
fn begin(alloc: Global, term: Fun, budget: u64, keep: bool) -> Result<Held, Memory>
    ensures whole { IfOk result (λ m. term_tree m.whole.value ≡ TermF (fun_tree term)) }
    ensures left { IfOk result (λ m. m.left ≡ budget) }
    ensures log { IfOk result (λ m. notes m.log ≡ begun keep) }
    ensures stack { IfOk result (λ m. m.stack.items ≡ []) }
{
    let whole = Box::new(alloc, Term::F(term))?;
    Ok(Held {
        whole,
        left: budget,
        log: Log {
            count: 0,
            keep,
            list: Vec::new(alloc),
        },
        stack: Vec::new(alloc),
    })
}

/// The end to which the plan comes at the root.
fn run(
    alloc: Global,
    schema: &Schema,
    rules: &RuleTable,
    plan: &Plan,
    term: Fun,
    budget: u64,
    keep: bool,
) -> Result<(Held, Now), Memory>
    requires rules { Each (RuleOk schema.now) (map rule_tree rules.now) }
    requires fires { Each (EntryFor (map rule_tree rules.now)) (entries_of plan.now) }
    requires fits { FitsUnit schema.now (TermF (fun_tree term)) }
    ensures reached { IfOk result (λ r. Reached (world schema.now (map rule_tree rules.now))
        (Do (stands_for (entries_of plan.now) (start_of plan.now))) (TermF (fun_tree term)) budget (begun keep)
        (conf (table (entries_of plan.now)) r.0 r.1)) }
    ensures over { IfOk result (λ r. is_end r.1 ≡ true) }
    ensures within { IfOk result (λ r. r.0.log.count + r.0.left ≤ budget) }
{
    let mut m = begin(alloc, term, budget, keep)?;
    let mut at = Now::Going(Job::Do(plan.start()), Items::new(alloc));
    'steps: loop {
        at = until_step(alloc, schema, rules, plan, &mut m, at)?;
        if is_over(&at) {
            return Ok((m, at));
        }
    }
}

/// How the run ends.
fn end_of(now: &Now) -> End
    ensures { result ≡ end_now now.now }
{
    match now {
        Now::Spent => End::Spent,
        Now::Size => End::Size,
        _ => End::Done,
    }
}

/// Whether the statement succeeded.
fn is_ok(now: &Now) -> bool
    ensures { result ≡ ok_now now.now }
{
    match now {
        Now::Done(ok) => *ok,
        _ => false,
    }
}

/// The function that the term is.
fn fun_of(term: Box<Term>) -> Fun
    requires { IsFun (term_tree term.value) }
    ensures { TermF (fun_tree result) ≡ term_tree term.value }
{
    match Box::into_inner(term) {
        Term::F(f) => f,
        Term::P(_) | Term::C(_) => unreachable!(),
    }
}

/// What the machine's last state says.
fn outcome_of(m: Held, now: &Now, budget: u64) -> Outcome
    requires term { IsFun (term_tree m.whole.value) }
    requires left { m.left ≤ budget }
    ensures { Reports m now.now budget result }
{
    let Held {
        whole,
        left,
        log,
        ..
    } = m;
    Outcome {
        term: fun_of(whole),
        ok: is_ok(now),
        firings: log.count,
        steps: budget - left,
        end: end_of(now),
    }
}

/// Runs a plan on a term at its root, with a budget of steps: what the run of the statement comes to for which the plan
/// stands. `Spent` and `Size` are its stops; the term is then the one with every firing so far. The term of every
/// outcome fits at `unit`, has the type of the given term, and has its value in every database that meets the schema.
pub fn run_plan(
    alloc: Global,
    accepted: &Accepted,
    plan: &Plan,
    term: Fun,
    budget: u64,
) -> Result<Outcome, Memory>
    requires plan { PlanFor (entries_of plan.now) (start_of plan.now) (map rule_tree accepted.now.rules) }
    requires fits { (u : TypeTree) × Fits accepted.now.schema [] (TermF (fun_tree term)) TUnit u }
    ensures outcome { IfOk result
        (λ o. (f : List Event) × Answers accepted.now.schema (map rule_tree accepted.now.rules)
        (stands_for (entries_of plan.now) (start_of plan.now)) (TermF (fun_tree term)) budget o f) }
    ensures fits { IfOk result (λ o. (u : TypeTree) × Fits accepted.now.schema [] (TermF (fun_tree o.term)) TUnit u) }
    ensures keeps { IfOk result (λ o. Good accepted.now.schema (TermF (fun_tree term)) (TermF (fun_tree o.term))) }
{
    accepted.well_formed();
    accepted.schema().well_formed();
    let (m, now) = run(
        alloc,
        accepted.schema(),
        accepted.rules(),
        plan,
        term,
        budget,
        false,
    )?;
    Ok(outcome_of(m, &now, budget))
}

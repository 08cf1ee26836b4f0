//! The moves of the machine.

ghost use Rattle.std.specs.Prelude.{◌≡◌, ◌+◌, ◌<◌, ◌^◌, ℕ, List, [], ◌∷◌, ◌++◌, Some, None, map, true, IfOk, IfSome, IfNone, slice_get};
ghost use Rattle.kola_values.specs.Databases.{Classes};
ghost use Rattle.kola_values.specs.Sets.{Each};
ghost use Rattle.kola_term.specs.TermView.{term_tree};
ghost use Rattle.kola_rule.specs.Rules.{RuleTree};
ghost use Rattle.kola_rule.specs.RuleViews.{rule_tree};
ghost use Rattle.kola_match.specs.RuleOk.{RuleOk};
ghost use Rattle.coko_plan.specs.Wholes.{WFire, WGiven, WholeArms, NoWholes, MoreWholes};
ghost use Rattle.coko_plan.specs.Entries.{pick, table};
ghost use Rattle.coko_plan.specs.EntryViews.{entry_tree, entries_of};
ghost use Rattle.coko_plan.specs.Plans.{EntryFor};
ghost use Rattle.coko_run.specs.Outcomes.{Fired, each};
ghost use Rattle.coko_run.specs.Runs.{Do, Step, Walk};
ghost use Rattle.coko_run.specs.Notes.{noted};
ghost use Rattle.coko_run.specs.Moves.{Going, Back, FAfter};
ghost use Rattle.coko_run.specs.Weights.{Leads};
ghost use Rattle.coko_run.specs.Firing.{world, FitsUnit};
ghost use Rattle.coko_run.specs.Fires.{MayFire, Stepped, arm_list};
ghost use Rattle.coko_run.specs.Views.{job_of, when_of, frames, notes, arms_of, idle_of, is_end, counted, conf, before};

use crate::fire::{Shooting, fire};
use crate::machine::{Frame, Held, Job, Log, Now, Shot, When};
use crate::shape::{has_form_at, live_children_at};
use crate::stack::{goes, or, pop, push_job, push_or};
use coko_plan::{Entry, Plan, PlanArms};
use kola_core::{Items, Memory, Path};
use kola_rule::RuleTable;
use kola_schema::Schema;
use kola_term::Term;
use std::alloc::Global;

/// Notes a firing.
fn note(log: &mut Log, rule: usize, rev: bool, path: Path) -> Result<(), Memory>
    requires { log.old.count + 1 < 2 ^ 64 }
    ensures { IfOk result (λ r. notes log.new ≡ noted (notes log.old) (Fired rule rev path ∷ [])) }
{
    if !log.keep {
        log.count += 1;
        return Ok(());
    }
    log.list.push(Shot { rule, rev, path })?;
    log.count += 1;
    Ok(())
}

/// Attempts to fire the rule of a number.
fn attempt(
    alloc: Global,
    schema: &Schema,
    rules: &RuleTable,
    plan: &Plan,
    m: &mut Held,
    n: usize,
    rev: bool,
    path: Path,
) -> Result<Now, Memory>
    requires rules { Each (RuleOk schema.now) (map rule_tree rules.now) }
    requires fires { MayFire (map rule_tree rules.now) n rev }
    requires fits { FitsUnit schema.now (term_tree m.old.whole.value) }
    requires room { m.old.log.count + m.old.left < 2 ^ 64 }
    ensures { IfOk result (λ s. Leads (world schema.now (map rule_tree rules.now))
        (before (table (entries_of plan.now)) m.old (Do (WFire n rev)) path)
        (conf (table (entries_of plan.now)) m.new s)) }
{
    if m.left == 0 {
        return Ok(Now::Spent);
    }
    m.left -= 1;
    match fire(alloc, schema, rules, &m.whole, n, rev, &path)? {
        Shooting::Miss => Ok(Now::Back(false)),
        Shooting::Size => Ok(Now::Size),
        Shooting::Hit(new) => {
            note(&mut m.log, n, rev, path)?;
            m.whole = new;
            Ok(Now::Back(true))
        }
    }
}

/// `SKIP` and `FAIL`.
fn idle(plan: &Plan, m: &mut Held, ok: bool) -> Now
    ensures { (S : Classes) (A : List RuleTree) (q : List ℕ) → Leads (world S A)
        (before (table (entries_of plan.now)) m.old (Do (idle_of ok)) q)
        (conf (table (entries_of plan.now)) m.new result) }
{
    if m.left == 0 {
        return Now::Spent;
    }
    m.left -= 1;
    Now::Back(ok)
}

/// Goes on with a first job, and puts the second on the stack.
fn first_of(
    alloc: Global,
    plan: &Plan,
    m: &mut Held,
    when: When,
    second: Job,
    first: Job,
    path: Path,
) -> Result<Now, Memory>
    ensures { IfOk result (λ s. conf (table (entries_of plan.now)) m.new s
        ≡ Going (job_of (table (entries_of plan.now)) first) (term_tree m.old.whole.value) path m.old.left (notes m.old.log)
        (FAfter (when_of when) (job_of (table (entries_of plan.now)) second) path
        ∷ frames (table (entries_of plan.now)) m.old.stack.items)) }
{
    push_job(alloc, plan, &mut m.stack, when, second, &path)?;
    Ok(Now::Going(first, path))
}

/// The same at a path below.
fn first_below(
    alloc: Global,
    plan: &Plan,
    m: &mut Held,
    second: Job,
    first: Job,
    path: Path,
    below: &[u8],
) -> Result<Now, Memory>
    ensures { IfOk result (λ s. conf (table (entries_of plan.now)) m.new s
        ≡ Going (job_of (table (entries_of plan.now)) first) (term_tree m.old.whole.value) (path ++ below.now) m.old.left
        (notes m.old.log)
        (FAfter (when_of When.Always) (job_of (table (entries_of plan.now)) second) path
        ∷ frames (table (entries_of plan.now)) m.old.stack.items)) }
{
    push_job(alloc, plan, &mut m.stack, When::Always, second, &path)?;
    let mut numbers = path.into_vec();
    numbers.extend_from_slice(below)?;
    Ok(Now::Going(first, Items::from_vec(numbers)))
}

/// The arms of a `GIVEN`.
fn arms_in(e: &Entry) -> Option<&PlanArms>
    ensures none { IfNone result (arm_list (entry_tree e.now) ≡ []) }
    ensures some { IfSome result (λ r. arm_list (entry_tree e.now) ≡ r.now) }
{
    match e {
        Entry::Given(_, arms) => Some(arms),
        _ => None,
    }
}

/// The arm of a number.
fn one_of(arms: &[(Path, usize)], k: usize) -> Option<&(Path, usize)>
    ensures none { IfNone result (slice_get arms.now k ≡ None) }
    ensures some { IfSome result (λ r. slice_get arms.now k ≡ Some r.now) }
    ensures room { IfSome result (λ r. k + 1 < 2 ^ 64) }
{
    arms.get(k)
}

/// The arm of a number of the entry of a number.
fn arm_at(plan: &Plan, i: usize, k: usize) -> Option<&(Path, usize)>
    ensures none { IfNone result (arms_of k (pick (table (entries_of plan.now)) i) ≡ NoWholes) }
    ensures some { IfSome result (λ r. arms_of k (pick (table (entries_of plan.now)) i)
        ≡ MoreWholes r.now.0 (pick (table (entries_of plan.now)) r.now.1)
        (arms_of (k + 1) (pick (table (entries_of plan.now)) i))) }
    ensures room { IfSome result (λ r. k + 1 < 2 ^ 64) }
{
    let Some(e) = plan.entry(i) else {
        return None;
    };
    let Some(arms) = arms_in(e) else {
        return None;
    };
    one_of(arms.as_slice(), k)
}

/// Goes on with the arms of a `GIVEN`, from one on.
fn walking(
    alloc: Global,
    plan: &Plan,
    m: &mut Held,
    i: usize,
    k: usize,
    path: Path,
) -> Result<Now, Memory>
    ensures { IfOk result (λ s. (S : Classes) (A : List RuleTree) → Leads (world S A)
        (before (table (entries_of plan.now)) m.old (Walk (arms_of k (pick (table (entries_of plan.now)) i))) path)
        (conf (table (entries_of plan.now)) m.new s)) }
{
    match arm_at(plan, i, k) {
        None => Ok(Now::Back(false)),
        Some(arm) => first_below(
            alloc,
            plan,
            m,
            Job::Arms(i, k + 1),
            Job::Do(arm.1),
            path,
            arm.0.as_slice(),
        ),
    }
}

/// Goes on with a `GIVEN`.
fn given(plan: &Plan, m: &mut Held, i: usize, pattern: &Term, path: Path) -> Now
    ensures { (S : Classes) (A : List RuleTree) (arms : WholeArms) →
        pick (table (entries_of plan.now)) i ≡ WGiven (term_tree pattern.now) arms → Leads (world S A)
        (before (table (entries_of plan.now)) m.old (Do (pick (table (entries_of plan.now)) i)) path)
        (conf (table (entries_of plan.now)) m.new result) }
{
    if m.left == 0 {
        return Now::Spent;
    }
    m.left -= 1;
    if has_form_at(pattern, &m.whole, &path) {
        return Now::Going(Job::Arms(i, 0), path);
    }
    Now::Back(false)
}

/// Goes on with the entry of a number.
fn acting(
    alloc: Global,
    schema: &Schema,
    rules: &RuleTable,
    plan: &Plan,
    m: &mut Held,
    i: usize,
    path: Path,
) -> Result<Now, Memory>
    requires rules { Each (RuleOk schema.now) (map rule_tree rules.now) }
    requires fires { Each (EntryFor (map rule_tree rules.now)) (entries_of plan.now) }
    requires fits { FitsUnit schema.now (term_tree m.old.whole.value) }
    requires room { m.old.log.count + m.old.left < 2 ^ 64 }
    ensures { IfOk result (λ s. Leads (world schema.now (map rule_tree rules.now))
        (before (table (entries_of plan.now)) m.old (Do (pick (table (entries_of plan.now)) i)) path)
        (conf (table (entries_of plan.now)) m.new s)) }
{
    let Some(e) = plan.entry(i) else {
        return Ok(idle(plan, m, true));
    };
    match e {
        Entry::Skip => Ok(idle(plan, m, true)),
        Entry::Fail => Ok(idle(plan, m, false)),
        Entry::Fire(n, rev) => attempt(alloc, schema, rules, plan, m, *n, *rev, path),
        Entry::Seq(a, b) => {
            first_of(alloc, plan, m, When::Always, Job::Do(*b), Job::Do(*a), path)
        }
        Entry::Then(a, b) => {
            first_of(alloc, plan, m, When::OnOk, Job::Do(*b), Job::Do(*a), path)
        }
        Entry::Else(a, b) => {
            first_of(alloc, plan, m, When::OnFail, Job::Do(*b), Job::Do(*a), path)
        }
        Entry::Bu(a) => {
            first_of(
                alloc,
                plan,
                m,
                When::Always,
                Job::Step(*a),
                Job::Kids(i),
                path,
            )
        }
        Entry::Td(a) => stepping(alloc, plan, m, When::Always, Job::Kids(i), *a, path),
        Entry::Repeat(a) => stepping(alloc, plan, m, When::OnOk, Job::Do(i), *a, path),
        Entry::Given(pattern, _) => Ok(given(plan, m, i, pattern, path)),
    }
}

/// Takes a step, and goes on with a first statement.
fn stepping(
    alloc: Global,
    plan: &Plan,
    m: &mut Held,
    when: When,
    second: Job,
    i: usize,
    path: Path,
) -> Result<Now, Memory>
    ensures { IfOk result (λ s. Stepped (table (entries_of plan.now)) m.old (when_of when)
        (job_of (table (entries_of plan.now)) second) (pick (table (entries_of plan.now)) i) path
        (conf (table (entries_of plan.now)) m.new s)) }
{
    if m.left == 0 {
        return Ok(Now::Spent);
    }
    m.left -= 1;
    first_of(alloc, plan, m, when, second, Job::Do(i), path)
}

/// Goes on with the children that are left.
fn child(
    alloc: Global,
    plan: &Plan,
    m: &mut Held,
    i: usize,
    last: u8,
    left: u8,
    path: Path,
) -> Result<Now, Memory>
    ensures { IfOk result (λ s. (S : Classes) (A : List RuleTree) → Leads (world S A)
        (before (table (entries_of plan.now)) m.old
        (Walk (each (pick (table (entries_of plan.now)) i) (counted last left))) path)
        (conf (table (entries_of plan.now)) m.new s)) }
{
    if left == 0 {
        return Ok(Now::Back(false));
    }
    let left = left - 1;
    let number = last.saturating_sub(left);
    first_below(
        alloc,
        plan,
        m,
        Job::Child(i, last, left),
        Job::Do(i),
        path,
        &[number],
    )
}

/// Takes a step, and goes on with the statement.
fn step(plan: &Plan, m: &mut Held, i: usize, path: Path) -> Now
    ensures { (S : Classes) (A : List RuleTree) → Leads (world S A)
        (before (table (entries_of plan.now)) m.old (Step (pick (table (entries_of plan.now)) i)) path)
        (conf (table (entries_of plan.now)) m.new result) }
{
    if m.left == 0 {
        return Now::Spent;
    }
    m.left -= 1;
    Now::Going(Job::Do(i), path)
}

/// Goes on with a job.
fn going(
    alloc: Global,
    schema: &Schema,
    rules: &RuleTable,
    plan: &Plan,
    m: &mut Held,
    job: Job,
    path: Path,
) -> Result<Now, Memory>
    requires rules { Each (RuleOk schema.now) (map rule_tree rules.now) }
    requires fires { Each (EntryFor (map rule_tree rules.now)) (entries_of plan.now) }
    requires fits { FitsUnit schema.now (term_tree m.old.whole.value) }
    requires room { m.old.log.count + m.old.left < 2 ^ 64 }
    ensures { IfOk result (λ s. Leads (world schema.now (map rule_tree rules.now))
        (before (table (entries_of plan.now)) m.old (job_of (table (entries_of plan.now)) job) path)
        (conf (table (entries_of plan.now)) m.new s)) }
{
    match job {
        Job::Do(i) => acting(alloc, schema, rules, plan, m, i, path),
        Job::Step(i) => Ok(step(plan, m, i, path)),
        Job::Kids(i) => {
            let count = live_children_at(&m.whole, &path);
            Ok(Now::Going(Job::Child(i, count, count), path))
        }
        Job::Child(i, last, left) => child(alloc, plan, m, i, last, left, path),
        Job::Arms(i, k) => walking(alloc, plan, m, i, k, path),
    }
}

/// Goes on behind a part.
fn returning(plan: &Plan, m: &mut Held, ok: bool) -> Result<Now, Memory>
    ensures { IfOk result (λ s. (S : Classes) (A : List RuleTree) → Leads (world S A)
        (Back ok (term_tree m.old.whole.value) m.old.left (notes m.old.log)
        (frames (table (entries_of plan.now)) m.old.stack.items))
        (conf (table (entries_of plan.now)) m.new s)) }
{
    match pop(plan, &mut m.stack) {
        None => Ok(Now::Done(ok)),
        Some(Frame::Or(before)) => Ok(Now::Back(or(before, ok))),
        Some(Frame::After(when, job, path)) => {
            if !goes(when, ok) {
                return Ok(Now::Back(ok));
            }
            push_or(plan, &mut m.stack, ok)?;
            Ok(Now::Going(job, path))
        }
    }
}

/// One move.
pub(crate) fn advance(
    alloc: Global,
    schema: &Schema,
    rules: &RuleTable,
    plan: &Plan,
    m: &mut Held,
    now: Now,
) -> Result<Now, Memory>
    requires rules { Each (RuleOk schema.now) (map rule_tree rules.now) }
    requires fires { Each (EntryFor (map rule_tree rules.now)) (entries_of plan.now) }
    requires fits { FitsUnit schema.now (term_tree m.old.whole.value) }
    requires room { m.old.log.count + m.old.left < 2 ^ 64 }
    ensures { IfOk result (λ s. Leads (world schema.now (map rule_tree rules.now))
        (conf (table (entries_of plan.now)) m.old now)
        (conf (table (entries_of plan.now)) m.new s)) }
{
    match now {
        Now::Going(job, path) => going(alloc, schema, rules, plan, m, job, path),
        Now::Back(ok) => returning(plan, m, ok),
        Now::Done(ok) => Ok(Now::Done(ok)),
        Now::Spent => Ok(Now::Spent),
        Now::Size => Ok(Now::Size),
    }
}

/// Whether the run is over.
pub(crate) fn is_over(now: &Now) -> bool
    ensures { result ≡ is_end now.now }
{
    match now {
        Now::Going(_, _) | Now::Back(_) => false,
        Now::Done(_) | Now::Spent | Now::Size => true,
    }
}

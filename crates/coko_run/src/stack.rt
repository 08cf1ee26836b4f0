//! The machine's stack, and what is done with it.

ghost use Rattle.std.specs.Prelude.{◌≡◌, ◌||◌, [], ◌∷◌, IfOk, IfSome, IfNone};
ghost use Rattle.coko_plan.specs.Entries.{table};
ghost use Rattle.coko_plan.specs.EntryViews.{entries_of};
ghost use Rattle.coko_run.specs.Outcomes.{goes};
ghost use Rattle.coko_run.specs.Moves.{FAfter, merged};
ghost use Rattle.coko_run.specs.Views.{job_of, when_of, frame_of, frames};

use crate::machine::{Frame, Job, When};
use coko_plan::Plan;
use kola_core::{Items, Memory, Path};
use std::alloc::Global;

/// Whether the second part follows.
pub(crate) fn goes(when: When, ok: bool) -> bool
    ensures { result ≡ goes (when_of when) ok }
{
    match when {
        When::Always => true,
        When::OnOk => ok,
        When::OnFail => !ok,
    }
}

/// Whether one of two parts succeeded.
pub(crate) fn or(a: bool, b: bool) -> bool
    ensures { result ≡ (a || b) }
{
    a || b
}

/// A copy of a path.
pub(crate) fn copy_path(alloc: Global, path: &Path) -> Result<Path, Memory>
    ensures { IfOk result (λ r. r ≡ path.now) }
{
    let mut numbers = Vec::new(alloc);
    numbers.extend_from_slice(path.as_slice())?;
    Ok(Items::from_vec(numbers))
}

/// Puts a frame on the stack.
pub(crate) fn push(plan: &Plan, stack: &mut Vec<Frame>, frame: Frame) -> Result<(), Memory>
    ensures { IfOk result (λ r. frames (table (entries_of plan.now)) stack.new.items
        ≡ frame_of (table (entries_of plan.now)) frame ∷ frames (table (entries_of plan.now)) stack.old.items) }
{
    stack.push(frame)?;
    Ok(())
}

/// Puts a job at a copy of the path on the stack.
pub(crate) fn push_job(
    alloc: Global,
    plan: &Plan,
    stack: &mut Vec<Frame>,
    when: When,
    job: Job,
    path: &Path,
) -> Result<(), Memory>
    ensures { IfOk result (λ r. frames (table (entries_of plan.now)) stack.new.items
        ≡ FAfter (when_of when) (job_of (table (entries_of plan.now)) job) path.now
        ∷ frames (table (entries_of plan.now)) stack.old.items) }
{
    let path = copy_path(alloc, path)?;
    push(plan, stack, Frame::After(when, job, path))
}

/// Takes the frame from the top of the stack.
pub(crate) fn pop(plan: &Plan, stack: &mut Vec<Frame>) -> Option<Frame>
    ensures some { IfSome result (λ f. frames (table (entries_of plan.now)) stack.old.items
        ≡ frame_of (table (entries_of plan.now)) f ∷ frames (table (entries_of plan.now)) stack.new.items) }
    ensures none { IfNone result (frames (table (entries_of plan.now)) stack.old.items ≡ []) }
    ensures still { IfNone result (frames (table (entries_of plan.now)) stack.new.items ≡ []) }
{
    // Gives the proof the length of the items.
    let _items = stack.as_slice();
    stack.pop()
}

/// Puts the success of a part before on the stack; two of them are one.
pub(crate) fn push_or(plan: &Plan, stack: &mut Vec<Frame>, ok: bool) -> Result<(), Memory>
    ensures { IfOk result (λ r. frames (table (entries_of plan.now)) stack.new.items
        ≡ merged ok (frames (table (entries_of plan.now)) stack.old.items)) }
{
    match pop(plan, stack) {
        None => push(plan, stack, Frame::Or(ok)),
        Some(Frame::Or(before)) => push(plan, stack, Frame::Or(or(before, ok))),
        Some(Frame::After(when, job, path)) => {
            push(plan, stack, Frame::After(when, job, path))?;
            push(plan, stack, Frame::Or(ok))
        }
    }
}

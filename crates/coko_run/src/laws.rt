//! What holds of runs. Each is a function that does nothing.

ghost use Rattle.coko_run.specs.Claims.{AtMostOne, NotNone, RunsKeep};

/// A statement whose firings put in no variable that their pattern side lacks has no two outcomes, and no statement is
/// without one.
pub fn a_run_has_one_outcome()
    ensures one { AtMostOne }
    ensures some { NotNone }
{}

/// Under rules that hold, the term of every outcome has the kind, the type at `unit` and the value of the term before.
pub fn a_run_keeps_the_meaning()
    ensures { RunsKeep }
{}

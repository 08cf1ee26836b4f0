//! What the machine has at each moment.

use kola_core::Path;
use kola_term::Term;

/// What is to be done at a path; a statement is the number of its entry.
#[derive(Clone, Copy)]
pub(crate) enum Job {
    /// The statement.
    Do(usize),
    /// A step, and then the statement.
    Step(usize),
    /// The statement at each child that is no constant.
    Kids(usize),
    /// The statement at as many children as the second number says, up to the child of the first.
    Child(usize, u8, u8),
    /// The arms of the statement, from the one of the number on.
    Arms(usize, usize),
}

/// When a second part follows a first.
#[derive(Clone, Copy)]
pub(crate) enum When {
    Always,
    OnOk,
    OnFail,
}

/// What follows when a part is over.
#[derive(Drop)]
pub(crate) enum Frame {
    /// The success of the part before counts too.
    Or(bool),
    /// A job at a path.
    After(When, Job, Path),
}

/// Where the machine stands.
#[derive(Drop)]
pub(crate) enum Now {
    /// Before a job at a path.
    Going(Job, Path),
    /// Behind a part, with its success.
    Back(bool),
    /// At the end of all.
    Done(bool),
    /// Before a step that is not left.
    Spent,
    /// Before a firing whose term would not fit.
    Size,
}

/// A firing: the rule's place in the table, whether it fired from right to left, and the path.
#[derive(Drop)]
pub(crate) struct Shot {
    pub(crate) rule: usize,
    pub(crate) rev: bool,
    pub(crate) path: Path,
}

/// The number of firings, and where a list is kept, the list.
#[derive(Drop)]
pub(crate) struct Log {
    pub(crate) count: u64,
    pub(crate) keep: bool,
    pub(crate) list: Vec<Shot>,
}

/// What the machine has beside the place where it stands.
#[derive(Drop)]
pub(crate) struct Held {
    pub(crate) whole: Box<Term>,
    pub(crate) left: u64,
    pub(crate) log: Log,
    pub(crate) stack: Vec<Frame>,
}

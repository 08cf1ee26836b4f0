//! What a run answers.

use kola_core::{Items, Name, Path};
use kola_term::Fun;

/// How a run ends.
#[derive(Clone, Copy)]
pub enum End {
    /// The statement is over.
    Done,
    /// The steps are used up, and one more is wanted.
    Spent,
    /// A firing would give a term that does not fit.
    Size,
}

/// What a run comes to.
#[derive(Drop)]
pub struct Outcome {
    /// The whole term, with every firing so far.
    pub term: Fun,
    /// Whether the statement succeeded; never where the run has stopped.
    pub ok: bool,
    /// The number of firings.
    pub firings: u64,
    /// The number of steps that were taken.
    pub steps: u64,
    /// How it ends.
    pub end: End,
}

/// A firing: the rule's name, whether it fired from right to left, and the path of the place from the root.
#[derive(Drop)]
pub struct Firing {
    pub rule: Name,
    pub rev: bool,
    pub path: Path,
}

/// Firings in their order.
pub type Firings = Items<Firing>;

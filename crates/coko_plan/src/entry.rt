//! The entries of a plan.

use kola_core::{Items, Path};
use kola_term::Term;

/// The arms of a `GIVEN`, each with the path to the part of the pattern and the number of its statement.
pub type PlanArms = Items<(Path, usize)>;

/// A statement whose parts are entries of lower numbers.
#[derive(Drop)]
pub enum Entry {
    /// The rule at the place of the table, counted from 0, from right to left where it is reversed.
    Fire(usize, bool),
    /// `SKIP`: it succeeds.
    Skip,
    /// `FAIL`: it fails.
    Fail,
    /// `S ; S`: one entry behind the other.
    Seq(usize, usize),
    /// `S -> S`: the second only where the first succeeded.
    Then(usize, usize),
    /// `S || S`: the second only where the first failed.
    Else(usize, usize),
    /// `BU S`: at every part, the parts of a part before it.
    Bu(usize),
    /// `TD S`: at every part, a part before its parts.
    Td(usize),
    /// `REPEAT S`: again until it fails.
    Repeat(usize),
    /// `GIVEN P DO v : S END`: where the pattern has the form of the part, each entry at its path.
    Given(Term, PlanArms),
}

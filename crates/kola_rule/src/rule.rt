//! Rules, the steps of their proofs, and rules with their proofs.

ghost use Rattle.std.specs.Prelude.{◌≡◌, IfOk};
ghost use Rattle.kola_term.specs.TermView.{term_tree};
ghost use Rattle.kola_rule.specs.RuleViews.{rule_tree};

use kola_core::{Items, Memory, Name, Names, Path};
use kola_term::{MetaCtx, Term};
use kola_values::Ty;

/// A rule: where the functions that its conditions name are injective, both sides are equal at the input type.
#[derive(Drop)]
pub struct Rule {
    /// The rule's name.
    pub name: Name,
    /// The variables with their declared types.
    pub vars: MetaCtx,
    /// The input type of both sides.
    pub input: Ty,
    /// The function variables that must be injective.
    pub when: Names,
    /// The left side.
    pub left: Term,
    /// The right side.
    pub right: Term,
}

/// A copy of a term.
fn copied(t: &Term) -> Result<Term, Memory>
    ensures { IfOk result (λ c. term_tree c ≡ term_tree t.now) }
{
    match t {
        Term::F(f) => Ok(Term::F(f.copy()?)),
        Term::P(p) => Ok(Term::P(p.copy()?)),
        Term::C(c) => Ok(Term::C(c.copy()?)),
    }
}

/// Copies of two terms.
fn copied_sides(left: &Term, right: &Term) -> Result<(Term, Term), Memory>
    ensures { IfOk result (λ r. (term_tree r.0 ≡ term_tree left.now) × (term_tree r.1 ≡ term_tree right.now)) }
{
    let left = copied(left)?;
    let right = copied(right)?;
    Ok((left, right))
}

impl Rule {
    /// A rule equal to it.
    pub fn copy(&self) -> Result<Rule, Memory>
        ensures { IfOk result (λ r. rule_tree r ≡ rule_tree self.now) }
    {
        let name = self.name.copy()?;
        let vars = self.vars.copy()?;
        let input = self.input.copy()?;
        let when = self.when.copy()?;
        let (left, right) = copied_sides(&self.left, &self.right)?;
        Ok(Rule {
            name,
            vars,
            input,
            when,
            left,
            right,
        })
    }
}

/// A step of a proof: the term that it comes to, by a rule at a path.
#[derive(Drop)]
pub struct Step {
    /// The term after the step.
    pub term: Term,
    /// The name of the rule that it takes.
    pub law: Name,
    /// Whether it takes the rule from right to left.
    pub rev: bool,
    /// The path to the part that it changes.
    pub path: Path,
}

/// The steps of a proof.
pub type Steps = Items<Step>;

/// A rule with its proof.
#[derive(Drop)]
pub struct Draft {
    /// The rule.
    pub rule: Rule,
    /// The first term of the proof.
    pub first: Term,
    /// The steps from there.
    pub steps: Steps,
}

/// The rules of a file with their proofs.
pub type Drafts = Items<Draft>;

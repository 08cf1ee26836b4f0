//! Drafts that are accepted, one behind the other, and drafts that are refused.

use crate::rule_texts::last_draft;
use crate::samples::{Broken, boxed, schema};
use kola_core::Memory;
use kola_proof::{Accepted, AdmitFault, StepWhy};
use kola_rule::Draft;
use kola_schema::Schema;
use std::alloc::Global;
use std::test::Fail;

/// Why a schema was handed back.
fn wanted(handed_back: (Memory, Schema)) -> Memory {
    handed_back.0
}

/// The laws alone, under the sample's schema.
fn started(alloc: Global) -> Result<Box<Accepted>, Broken> {
    let schema = schema(alloc)?;
    let accepted = Accepted::start(alloc, Box::into_inner(schema)).map_err(wanted)?;
    Ok(boxed(alloc, accepted)?)
}

/// What is said of a draft.
#[derive(Clone, Copy, Debug, PartialEq, Eq)]
enum Verdict {
    Accepted,
    Refused(usize, StepWhy),
    Memory,
}

fn said_of(answer: &Result<(), AdmitFault>) -> Verdict {
    match answer {
        Ok(()) => Verdict::Accepted,
        Err(AdmitFault::Refused { step, why, .. }) => Verdict::Refused(*step, *why),
        Err(AdmitFault::Memory { .. }) => Verdict::Memory,
    }
}

/// What is said of a draft; the answer, which may hand the draft back, is boxed, which costs less to prove.
fn admitted(alloc: Global, accepted: &mut Accepted, draft: Box<Draft>) -> Result<Verdict, Broken> {
    let answer = boxed(alloc, accepted.admit(Box::into_inner(draft)))?;
    Ok(said_of(&answer))
}

/// What is said of the last rule of a text.
fn told(alloc: Global, accepted: &mut Accepted, text: &str) -> Result<Verdict, Broken> {
    match last_draft(alloc, text)? {
        Some(draft) => admitted(alloc, accepted, draft),
        None => Err(Broken::Refused),
    }
}

/// Valid rules, of which the second takes the first in its proof.
const VALID: [&str; 4] = [
    "rule twice (f: a -> b) at a: (id o (id o f)) = f
proof (id o (id o f)) = (id o f) by id_left at here = f by id_left at here qed",
    "rule thrice (f: a -> b) at a: (id o (id o (id o f))) = f
proof (id o (id o (id o f))) = (id o f) by twice at here = f by id_left at here qed",
    "rule same (f: a -> b, g: c -> a, h: c -> a) at c when inj(f):
  (eq @ <(f o g), (f o h)>) = (eq @ <g, h>)
proof
  (eq @ <(f o g), (f o h)>)
  = (eq @ ((f * f) o <g, h>)) by rev times_pair at 2
  = ((eq @ (f * f)) @ <g, h>) by rev at_at at here
  = (eq @ <g, h>) by eq_inj at 1
qed",
    "rule push (p: pred a, q: pred a) at set a:
  (iterate(p, id) o iterate(q, id)) = iterate((q & p), id)
proof
  (iterate(p, id) o iterate(q, id))
  = iterate((q & (p @ id)), (id o id)) by iterate_iterate at here
  = iterate((q & p), (id o id)) by at_id at 1.2
  = iterate((q & p), id) by id_left at 2
qed",
];

#[test]
fn valid_rules_are_accepted_one_by_one(rt: HostRuntime) -> Result<(), Fail> {
    let mut accepted = started(rt.alloc())?;
    for text in VALID {
        assert_eq!(rt; told(rt.alloc(), &mut accepted, text)?, Verdict::Accepted);
    }
    assert_eq!(rt; accepted.rules().len(), 92);
    Ok(())
}

/// Rules that are refused, each with the step and the cause.
const REFUSED: [(&str, usize, StepWhy); 9] = [
    (
        "rule id_left (f: a -> b) at a: (id o f) = f proof (id o f) = f by id_left at here qed",
        0,
        StepWhy::NameTaken,
    ),
    (
        "rule r (f: a -> b) at b: (id o f) = f proof (id o f) = f by id_left at here qed",
        0,
        StepWhy::RuleIllTyped,
    ),
    (
        "rule r (f: a -> b) at a: (id o f) = f proof f = f by id_left at here qed",
        0,
        StepWhy::FirstIsNotLeft,
    ),
    (
        "rule r (f: a -> b) at a: (id o f) = f proof (id o f) = f by r at here qed",
        1,
        StepWhy::UnknownLaw,
    ),
    (
        "rule r (f: a -> b) at a: (id o f) = f proof (id o f) = f by id_left at 1.1 qed",
        1,
        StepWhy::NoSuchPath,
    ),
    (
        "rule r (f: a -> b) at a: (id o f) = f proof (id o f) = (f o f) by id_left at here qed",
        1,
        StepWhy::StepIllTyped,
    ),
    (
        "rule r (f: a -> b) at a: (id o f) = f proof (id o f) = f by id_right at here qed",
        1,
        StepWhy::NoInstance,
    ),
    (
        "rule r (f: a -> b, g: c -> a) at c: ((eq @ (f * f)) @ <g, g>) = (eq @ <g, g>)
proof ((eq @ (f * f)) @ <g, g>) = (eq @ <g, g>) by eq_inj at 1 qed",
        1,
        StepWhy::ConditionNotShown,
    ),
    (
        "rule r (f: a -> b) at a: (id o (id o (id o f))) = f
proof (id o (id o (id o f))) = (id o (id o f)) by id_left at here = (id o f) by id_left at here qed",
        2,
        StepWhy::LastIsNotRight,
    ),
];

#[test]
fn other_rules_are_refused_at_their_first_fault(rt: HostRuntime) -> Result<(), Fail> {
    let mut accepted = started(rt.alloc())?;
    for (text, step, why) in REFUSED {
        assert_eq!(rt;
            told(rt.alloc(), &mut accepted, text)?,
            Verdict::Refused(step, why),
            "{text}"
        );
    }
    assert_eq!(rt; accepted.rules().len(), 88);
    Ok(())
}

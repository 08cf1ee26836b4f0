//! Rules with proofs: the check of a draft, and the rules that were accepted.
#![tactic(auto)]

mod accepted;
mod conditions;
mod draft;
mod facts;
mod fault;
mod injective;
mod outside;
mod step;
mod table;

pub use accepted::Accepted;
pub use facts::{
    a_draft_is_valid_or_has_one_first_fault, drafts_are_valid_or_have_one_first_fault,
    proved_rules_hold,
};
pub use fault::{AdmitFault, FileFault, StepWhy};
pub use injective::infer_inj;

//! The terms of the algebra, with their value and visits.
#![tactic(auto)]

mod constant;
mod count;
mod input;
mod inputs;
mod judge;
mod judging;
mod laws;
pub mod make;
mod meta;
mod part;
mod place;
mod size;
mod term;
mod typing;
mod unlimited;

pub use constant::{Const, LitSet};
pub use count::{depth, nodes};
pub use input::{input_at, input_at_part};
pub use laws::{
    a_term_is_fine_or_has_one_first_fault, equal_parts_keep_the_value, fine_parts_keep_a_fine_term,
    parts_of_a_fine_term_are_fine, parts_of_one_type_keep_the_type, typed_functions_keep_types,
    typed_terms_are_typed_at_each_place,
};
pub use meta::{MetaCtx, MetaTy};
pub use part::{Children, SubTerm, sub_at};
pub use place::{PlaceFault, replace_at};
pub use term::{Fun, Pred, Term};
pub use typing::{TypeFault, TypeWhy, out_type, pred_ok};
pub use unlimited::{const_type, out_type_without_limit, pred_ok_without_limit};

//! The types of queries: which queries are typed, and the first fault of every other; what a query means.
#![tactic(auto)]

mod check;
mod fault;
mod join;
mod laws;
mod literal;
mod path;
mod scope;
mod size;
mod typing;

pub use check::{Typed, check_query};
pub use fault::{CheckFault, CheckWhy};
pub use laws::{
    a_query_is_typed_or_has_one_first_fault, the_typing_answers_the_type_of_a_query,
    typed_queries_have_values_of_their_types, types_of_queries_are_small,
};

//! The text of queries: their grammar, and the reader with its first faults.
#![tactic(auto)]

mod laws;
mod link;
mod look;
mod operand;
mod outside;
mod read;
mod reading;
mod word;

pub use laws::{
    a_fault_names_a_select_where_distinct_could_follow, a_text_is_one_query_or_has_one_fault,
};
pub use read::{QueryFault, QueryWhy, read_query};
pub use word::{QueryWord, words_of_queries_are_no_names};

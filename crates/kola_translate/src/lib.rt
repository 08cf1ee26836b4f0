//! The translation of queries to terms.
#![tactic(auto)]

mod fault;
mod laws;
mod leaf;
mod made;
mod path;
mod scope;
mod terms;
mod translating;

pub use fault::TranslateFault;
pub use laws::{
    the_translation_has_the_encoded_type, the_translation_has_the_value_of_the_query,
    the_translation_reads_the_types_of_queries,
};
pub use translating::translate;

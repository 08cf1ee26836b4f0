//! Schemas and databases from their texts.
#![tactic(auto)]

mod db;
mod db_laws;
mod document;
mod elements;
mod extents;
mod fault;
mod fitting;
mod gathered;
mod ids;
mod keys;
mod members;
mod names;
mod numbers;
mod objects;
mod parts;
mod schema_alphabet;
mod schema_fault;
mod schema_laws;
mod schema_names;
mod schema_plain;
mod schema_read;
mod schema_syntax;
mod schema_tree;
mod values;

pub use db::read_db;
pub use db_laws::a_text_has_one_answer;
pub use fault::DbFault;
pub use kola_base::is_name;
pub use schema_fault::{SchemaFault, SchemaWhy};
pub use schema_laws::a_text_is_one_schema_or_has_one_fault;
pub use schema_read::read_schema;

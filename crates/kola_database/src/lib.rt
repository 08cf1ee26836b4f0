//! Databases: objects that meet a schema, with their extents.
#![tactic(auto)]

mod db;
mod db_laws;
mod keyed;
mod meets;
mod object;
mod objects;

pub use db::Db;
pub use db_laws::stored_databases_keep_their_meaning;
pub use meets::{ObjectsRefused, objects_ok};
pub use object::ObjectDef;
pub use objects::shaped;

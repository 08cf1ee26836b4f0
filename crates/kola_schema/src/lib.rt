//! Schemas, with the look-ups of their classes, extents, attributes and keys.
#![tactic(auto)]

mod entries;
mod schema;
mod schema_laws;

pub use entries::{entry_named, has_label, labels_are_distinct};
pub use schema::{ClassDef, IndexedClass, Keys, Schema, classes_ok};
pub use schema_laws::tests_of_names_are_exact;

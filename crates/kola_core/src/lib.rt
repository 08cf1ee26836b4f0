//! Names, texts, paths, lists and tables of names, which every crate above stands on.
#![tactic(auto)]

mod duplicate;
mod items;
mod name;
mod name_table;
mod text;

pub use duplicate::Duplicate;
pub use items::Items;
pub use name::{Name, Names, Path};
pub use name_table::NameTable;
pub use text::Text;

/// Want of memory.
pub type Memory = std::alloc::AllocError;

//! Laws of the texts of queries that join the reader and the printer.
#![tactic(auto)]

mod laws;

pub use laws::printed_queries_are_read_again;

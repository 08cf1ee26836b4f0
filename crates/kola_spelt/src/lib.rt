//! What is written in a canonical spelling is read again, token by token: words, numbers, strings and signs.
#![tactic(auto)]

mod laws;

pub use laws::a_quoted_text_writes_it;

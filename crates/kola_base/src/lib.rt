//! Where bytes come from and go to, and the tokens of a text.
#![tactic(auto)]

mod alphabet;
mod class;
mod cursor;
mod lex;
mod lexeme;
mod mem_sink;
mod mem_source;
mod named;
mod number;
mod query_words;
mod reading;
mod scan;
mod script;
mod sign;
mod std_streams;
mod streams;
mod strings;
mod term_word;
mod text_fault;
mod writing;

pub use alphabet::{Alphabet, Symbol, symbol_of};
pub use cursor::{expect_sign, expect_word, next_of};
pub use lex::{Kind, LexFault, LexWhy, Token, lexed_once, tokens};
pub use lexeme::{Lexeme, Lexemes, Placed, Quote};
pub use mem_sink::{CountSink, MemSink};
pub use mem_source::{MemSource, SteadySource};
pub use named::{Named, name_of};
pub use number::number_of;
pub use query_words::is_name;
pub use reading::{ReadAllFault, read_all};
pub use sign::Sign;
pub use std_streams::{StdSink, StdSource};
pub use streams::{Failed, Sink, Source};
pub use strings::quoted_of;
pub use term_word::TermWord;
pub use text_fault::{TextFault, TextWhy, fault_at};
pub use writing::{WriteFault, write_all};

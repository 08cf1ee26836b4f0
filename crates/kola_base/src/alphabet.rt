//! What the tokens of a text are to a grammar: signs, its words, names, numbers and strings.

ghost use Rattle.std.specs.Prelude.{◌≡◌, List, ℕ, Option};
ghost use Rattle.kola_base.specs.LexemeViews.{lexeme_view};
ghost use Rattle.kola_base.specs.Alphabets.{symbol_by};
ghost use Rattle.kola_base.specs.AlphabetViews.{symbol_view};

use crate::lexeme::{Lexeme, Quote};
use crate::sign::Sign;

/// The words of a grammar, which are no names there.
pub trait Alphabet: Copy {
    ghost named: { List ℕ → Option Self };

    /// The word that is written so, if there is one.
    fn named(word: &str) -> Option<Self>
        ensures { result ≡ named word.now };
}

/// What a token is to a grammar with the words `W`.
#[derive(Drop)]
pub enum Symbol<'a, W> {
    Sign(Sign),
    Word(W),
    /// A word that is none of the grammar's.
    Name(&'a str),
    Number(i64),
    Quoted(Quote<'a>),
}

/// What a token is to a grammar. It refuses nothing.
pub fn symbol_of<'a, W: Alphabet>(says: Lexeme<'a>) -> Symbol<'a, W>
    ensures { symbol_view result ≡ symbol_by W.named (lexeme_view says.entry) }
{
    match says {
        Lexeme::Word(word) => match W::named(word) {
            Some(known) => Symbol::Word(known),
            None => Symbol::Name(word),
        },
        Lexeme::Number(value) => Symbol::Number(value),
        Lexeme::Quoted(quote) => Symbol::Quoted(quote),
        Lexeme::Sign(sign) => Symbol::Sign(sign),
    }
}

//! Words of a text with the places where they stand.

ghost use Rattle.std.specs.Prelude.{◌≡◌};
ghost use Rattle.kola_parse.specs.Given.{Gives};
ghost use Rattle.std.specs.Option.{option_map};
ghost use Rattle.kola_base.specs.LexemeViews.{placed_view};
ghost use Rattle.kola_base.specs.Named.{name_of, name_at};
ghost use Rattle.kola_base.specs.NamedViews.{named_view};

use crate::cursor::next_of;
use crate::lexeme::{Lexeme, Lexemes, Placed};
use kola_parse::{Stop, stray};

/// A word of the text, and the place of its first byte, counted in bytes from 0.
#[derive(Clone, Copy)]
pub struct Named<'a> {
    pub name: &'a str,
    pub at: usize,
}

impl<'a> Placed<'a> {
    /// The word that the token is, with its place, whatever word it is.
    pub fn name(&self) -> Option<Named<'a>>
        ensures { option_map named_view result ≡ name_of (placed_view self.now) }
    {
        match self.says {
            Lexeme::Word(name) => Some(Named { name, at: self.at }),
            _ => None,
        }
    }
}

/// The word that comes first, whatever it is, and what stands behind it.
pub fn name_of<'a>(tokens: Lexemes<'a>) -> Result<(Named<'a>, Lexemes<'a>), Stop<Lexemes<'a>>>
    ensures { Gives (λ x. (named_view x.0, x.1)) result (name_at tokens.entry) }
{
    let (first, rest) = next_of(&tokens)?;
    let at = first.at;
    let Lexeme::Word(name) = first.says else {
        return stray(tokens);
    };
    Ok((Named { name, at }, rest))
}

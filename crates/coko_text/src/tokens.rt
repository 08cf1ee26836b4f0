//! Single tokens of rules: a sign or a word that may stand there, and names.

ghost use Rattle.kola_base.specs.Alphabets.{sign, word};
ghost use Rattle.kola_parse.specs.Given.{Gives};
ghost use Rattle.coko_text.specs.LedReaders.{Takes};
ghost use Rattle.coko_text.specs.RuleReaders.{name_at};

use kola_base::{Lexeme, Lexemes, Sign, Symbol, TermWord, next_of, symbol_of};
use kola_core::Name;
use kola_parse::{Stop, stray};
use std::alloc::Global;

/// What stands behind the sign where it comes first; else `None`.
pub(crate) fn after_sign<'a>(wanted: Sign, tokens: &Lexemes<'a>) -> Option<Lexemes<'a>>
    ensures { Takes (sign wanted) tokens.now result }
{
    let (first, rest) = tokens.split()?;
    match first.says {
        Lexeme::Sign(found) if found.spelling() == wanted.spelling() => Some(rest),
        _ => None,
    }
}

/// What stands behind the word where it comes first; else `None`.
pub(crate) fn after_word<'a>(wanted: &str, tokens: &Lexemes<'a>) -> Option<Lexemes<'a>>
    ensures { Takes (word wanted.now) tokens.now result }
{
    let (first, rest) = tokens.split()?;
    match first.says {
        Lexeme::Word(found) if found == wanted => Some(rest),
        _ => None,
    }
}

/// A name that is no word of terms or rules, and what is left behind it.
pub(crate) fn name_of<'a>(
    alloc: Global,
    tokens: Lexemes<'a>,
) -> Result<(Name, Lexemes<'a>), Stop<Lexemes<'a>>>
    ensures { Gives (λ x. x) result (name_at tokens.entry) }
{
    let (first, rest) = next_of(&tokens)?;
    match symbol_of::<TermWord>(first.says) {
        Symbol::Name(name) => Ok((Name::from_text(alloc, name)?, rest)),
        _ => return stray(tokens),
    }
}

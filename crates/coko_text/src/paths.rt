//! The places of steps, from tokens.

ghost use Rattle.std.specs.Prelude.{◌≡◌};
ghost use Rattle.kola_base.specs.Alphabets.{sign};
ghost use Rattle.kola_base.specs.AlphabetViews.{symbol_view};
ghost use Rattle.kola_base.specs.declared.sign.Sign.TheVariants as signs;
ghost use Rattle.kola_parse.specs.Given.{Gives};
ghost use Rattle.coko_text.specs.RuleGrammar.{child_of};
ghost use Rattle.coko_text.specs.LedReaders.{led, items_at, next_at};
ghost use Rattle.coko_text.specs.RuleReaders.{child_at, path_at};

use crate::tokens::{after_sign, after_word};
use kola_base::{Lexemes, Sign, Symbol, TermWord as Word, next_of, symbol_of};
use kola_core::{Items, Path};
use kola_parse::{Stop, stray};
use std::alloc::Global;

/// The number of the child that a token says, if it says one.
fn child_number(kind: Symbol<'_, Word>) -> Option<u8>
    ensures { result ≡ child_of (symbol_view kind.entry) }
{
    match kind {
        Symbol::Number(1) => Some(1),
        Symbol::Number(2) => Some(2),
        Symbol::Number(3) => Some(3),
        _ => None,
    }
}

/// The number of a child.
fn child_of<'a>(tokens: Lexemes<'a>) -> Result<(u8, Lexemes<'a>), Stop<Lexemes<'a>>>
    ensures { Gives (λ x. x) result (child_at tokens.entry) }
{
    let (first, rest) = next_of(&tokens)?;
    match child_number(symbol_of::<Word>(first.says)) {
        Some(child) => Ok((child, rest)),
        None => return stray(tokens),
    }
}

/// One more child behind a dot, or `None` where there is no dot.
fn next_child<'a>(tokens: Lexemes<'a>) -> Result<(Option<u8>, Lexemes<'a>), Stop<Lexemes<'a>>>
    ensures { Gives (λ x. x) result (next_at (sign signs.Dot) child_at tokens.entry) }
{
    match after_sign(Sign::Dot, &tokens) {
        Some(rest) => {
            let (child, rest) = child_of(rest)?;
            Ok((Some(child), rest))
        }
        None => Ok((None, tokens)),
    }
}

/// The children behind dots.
fn children_of<'a>(
    alloc: Global,
    tokens: Lexemes<'a>,
) -> Result<(Path, Lexemes<'a>), Stop<Lexemes<'a>>>
    ensures { Gives (λ x. x) result (items_at (led (sign signs.Dot) child_at) tokens.entry) }
{
    let mut path = Items::new(alloc);
    let mut rest = tokens;
    loop {
        let (next, behind) = next_child(rest)?;
        rest = behind;
        match next {
            Some(child) => path.push(child)?,
            None => return Ok((path, rest)),
        }
    }
}

/// A path, and what is left behind it.
pub(crate) fn path_of<'a>(
    alloc: Global,
    tokens: Lexemes<'a>,
) -> Result<(Path, Lexemes<'a>), Stop<Lexemes<'a>>>
    ensures { Gives (λ x. x) result (path_at tokens.entry) }
{
    match after_word(Word::Here.spelling(), &tokens) {
        Some(rest) => Ok((Items::new(alloc), rest)),
        None => {
            let (first, rest) = child_of(tokens)?;
            let (others, rest) = children_of(alloc, rest)?;
            Ok((others.prefixed(first)?, rest))
        }
    }
}

//! The conditions of rules, from tokens.

ghost use Rattle.std.specs.Prelude.{◌≡◌};
ghost use Rattle.kola_base.specs.Alphabets.{sign};
ghost use Rattle.kola_base.specs.declared.sign.Sign.TheVariants as signs;
ghost use Rattle.kola_parse.specs.Given.{Gives};
ghost use Rattle.coko_text.specs.LedReaders.{led, items_at, next_at};
ghost use Rattle.coko_text.specs.RuleReaders.{inj_at, more_injs_at, when_at};

use crate::tokens::{after_sign, after_word, name_of};
use kola_base::{Lexemes, Sign, TermWord as Word, expect_sign, expect_word};
use kola_core::{Items, Name, Names};
use kola_parse::Stop;
use std::alloc::Global;

/// A condition: the name of the function that is to be injective.
fn inj_of<'a>(alloc: Global, tokens: Lexemes<'a>) -> Result<(Name, Lexemes<'a>), Stop<Lexemes<'a>>>
    ensures { Gives (λ x. x) result (inj_at tokens.entry) }
{
    let rest = expect_word(Word::Inj.spelling(), tokens)?;
    let rest = expect_sign(Sign::Open, rest)?;
    let (name, rest) = name_of(alloc, rest)?;
    let rest = expect_sign(Sign::Close, rest)?;
    Ok((name, rest))
}

/// One more condition behind a comma, or `None` where there is no comma.
fn next_inj<'a>(
    alloc: Global,
    tokens: Lexemes<'a>,
) -> Result<(Option<Name>, Lexemes<'a>), Stop<Lexemes<'a>>>
    ensures { Gives (λ x. x) result (next_at (sign signs.Comma) inj_at tokens.entry) }
{
    match after_sign(Sign::Comma, &tokens) {
        Some(rest) => {
            let (name, rest) = inj_of(alloc, rest)?;
            Ok((Some(name), rest))
        }
        None => Ok((None, tokens)),
    }
}

/// The conditions behind commas.
fn other_injs_of<'a>(
    alloc: Global,
    tokens: Lexemes<'a>,
) -> Result<(Names, Lexemes<'a>), Stop<Lexemes<'a>>>
    ensures { Gives (λ x. x) result (items_at (led (sign signs.Comma) inj_at) tokens.entry) }
{
    let mut names = Items::new(alloc);
    let mut rest = tokens;
    loop {
        let (next, behind) = next_inj(alloc, rest)?;
        rest = behind;
        match next {
            Some(name) => names.push(name)?,
            None => return Ok((names, rest)),
        }
    }
}

/// The conditions behind commas, up to the colon, which is behind them.
fn more_injs_of<'a>(
    alloc: Global,
    tokens: Lexemes<'a>,
) -> Result<(Names, Lexemes<'a>), Stop<Lexemes<'a>>>
    ensures { Gives (λ x. x) result (more_injs_at tokens.entry) }
{
    let (names, rest) = other_injs_of(alloc, tokens)?;
    let rest = expect_sign(Sign::Colon, rest)?;
    Ok((names, rest))
}

/// The conditions of a rule, up to the colon, which is behind them.
pub(crate) fn when_of<'a>(
    alloc: Global,
    tokens: Lexemes<'a>,
) -> Result<(Names, Lexemes<'a>), Stop<Lexemes<'a>>>
    ensures { Gives (λ x. x) result (when_at tokens.entry) }
{
    match after_word(Word::When.spelling(), &tokens) {
        Some(rest) => {
            let (first, rest) = inj_of(alloc, rest)?;
            let (others, rest) = more_injs_of(alloc, rest)?;
            Ok((others.prefixed(first)?, rest))
        }
        None => {
            let rest = expect_sign(Sign::Colon, tokens)?;
            Ok((Items::new(alloc), rest))
        }
    }
}

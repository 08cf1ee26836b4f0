//! The variables of rules with their declared types, from tokens.

ghost use Rattle.std.specs.Prelude.{◌≡◌};
ghost use Rattle.std.specs.Option.{option_map};
ghost use Rattle.kola_base.specs.Alphabets.{sign};
ghost use Rattle.kola_base.specs.declared.sign.Sign.TheVariants as signs;
ghost use Rattle.kola_parse.specs.Given.{Gives};
ghost use Rattle.kola_term.specs.ContextView.{meta_entry, context_of};
ghost use Rattle.coko_text.specs.LedReaders.{led, items_at, next_at};
ghost use Rattle.coko_text.specs.RuleReaders.{arrow_at, meta_at, var_at, more_vars_at, vars_at};
ghost use Rattle.coko_text.specs.RuleViews.{boxed_type, boxed_meta};

use crate::tokens::{after_sign, after_word, name_of};
use crate::types::type_of;
use kola_base::{Lexemes, Sign, TermWord as Word, expect_sign};
use kola_core::{Items, Name};
use kola_parse::Stop;
use kola_term::{MetaCtx, MetaTy};
use kola_values::Ty;
use std::alloc::Global;

/// What stands behind the first type of a variable: with an arrow and a second type it is a function, and else a
/// constant.
fn arrow_of<'a>(
    alloc: Global,
    input: Box<Ty>,
    tokens: Lexemes<'a>,
    levels: usize,
) -> Result<(Box<MetaTy>, Lexemes<'a>), Stop<Lexemes<'a>>>
    ensures { Gives (λ x. (boxed_meta x.0, x.1)) result (arrow_at levels (boxed_type input) tokens.entry) }
{
    match after_sign(Sign::Arrow, &tokens) {
        Some(rest) => {
            let (output, rest) = type_of(alloc, rest, levels)?;
            let meta = MetaTy::Fun(Box::into_inner(input), Box::into_inner(output));
            Ok((Box::new(alloc, meta)?, rest))
        }
        None => Ok((
            Box::new(alloc, MetaTy::Const(Box::into_inner(input)))?,
            tokens,
        )),
    }
}

/// What a variable is declared as, behind its colon.
fn meta_of<'a>(
    alloc: Global,
    tokens: Lexemes<'a>,
    levels: usize,
) -> Result<(Box<MetaTy>, Lexemes<'a>), Stop<Lexemes<'a>>>
    ensures { Gives (λ x. (boxed_meta x.0, x.1)) result (meta_at levels tokens.entry) }
{
    match after_word(Word::Pred.spelling(), &tokens) {
        Some(rest) => {
            let (input, rest) = type_of(alloc, rest, levels)?;
            let meta = MetaTy::Pred(Box::into_inner(input));
            Ok((Box::new(alloc, meta)?, rest))
        }
        None => {
            let (input, rest) = type_of(alloc, tokens, levels)?;
            arrow_of(alloc, input, rest, levels)
        }
    }
}

/// A variable.
fn var_of<'a>(
    alloc: Global,
    tokens: Lexemes<'a>,
    levels: usize,
) -> Result<((Name, MetaTy), Lexemes<'a>), Stop<Lexemes<'a>>>
    ensures { Gives (λ x. (meta_entry x.0, x.1)) result (var_at levels tokens.entry) }
{
    let (name, rest) = name_of(alloc, tokens)?;
    let rest = expect_sign(Sign::Colon, rest)?;
    let (meta, rest) = meta_of(alloc, rest, levels)?;
    Ok(((name, Box::into_inner(meta)), rest))
}

/// One more variable behind a comma, or `None` where there is no comma.
fn next_var<'a>(
    alloc: Global,
    tokens: Lexemes<'a>,
    levels: usize,
) -> Result<(Option<(Name, MetaTy)>, Lexemes<'a>), Stop<Lexemes<'a>>>
    ensures { Gives (λ x. (option_map meta_entry x.0, x.1)) result
        (next_at (sign signs.Comma) (var_at levels) tokens.entry) }
{
    match after_sign(Sign::Comma, &tokens) {
        Some(rest) => {
            let (var, rest) = var_of(alloc, rest, levels)?;
            Ok((Some(var), rest))
        }
        None => Ok((None, tokens)),
    }
}

/// The variables behind commas.
fn other_vars_of<'a>(
    alloc: Global,
    tokens: Lexemes<'a>,
    levels: usize,
) -> Result<(MetaCtx, Lexemes<'a>), Stop<Lexemes<'a>>>
    ensures { Gives (λ x. (context_of x.0, x.1)) result
        (items_at (led (sign signs.Comma) (var_at levels)) tokens.entry) }
{
    let mut vars = Items::new(alloc);
    let mut rest = tokens;
    loop {
        let (next, behind) = next_var(alloc, rest, levels)?;
        rest = behind;
        match next {
            Some(var) => vars.push(var)?,
            None => return Ok((vars, rest)),
        }
    }
}

/// The variables behind commas, up to the parenthesis, which is behind them.
fn more_vars_of<'a>(
    alloc: Global,
    tokens: Lexemes<'a>,
    levels: usize,
) -> Result<(MetaCtx, Lexemes<'a>), Stop<Lexemes<'a>>>
    ensures { Gives (λ x. (context_of x.0, x.1)) result (more_vars_at levels tokens.entry) }
{
    let (vars, rest) = other_vars_of(alloc, tokens, levels)?;
    let rest = expect_sign(Sign::Close, rest)?;
    Ok((vars, rest))
}

/// The variables of a rule, up to the parenthesis, which is behind them.
pub(crate) fn vars_of<'a>(
    alloc: Global,
    tokens: Lexemes<'a>,
    levels: usize,
) -> Result<(MetaCtx, Lexemes<'a>), Stop<Lexemes<'a>>>
    ensures { Gives (λ x. (context_of x.0, x.1)) result (vars_at levels tokens.entry) }
{
    match after_sign(Sign::Close, &tokens) {
        Some(rest) => Ok((Items::new(alloc), rest)),
        None => {
            let (first, rest) = var_of(alloc, tokens, levels)?;
            let (others, rest) = more_vars_of(alloc, rest, levels)?;
            Ok((others.prefixed(first)?, rest))
        }
    }
}

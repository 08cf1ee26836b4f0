//! The steps of proofs, from tokens.

ghost use Rattle.std.specs.Prelude.{◌≡◌, map};
ghost use Rattle.std.specs.Option.{option_map};
ghost use Rattle.kola_base.specs.Alphabets.{sign};
ghost use Rattle.kola_base.specs.declared.sign.Sign.TheVariants as signs;
ghost use Rattle.kola_parse.specs.Given.{Gives};
ghost use Rattle.kola_rule.specs.RuleViews.{step_tree};
ghost use Rattle.kola_term.specs.ContextView.{context_of};
ghost use Rattle.coko_text.specs.LedReaders.{led, items_at, next_at};
ghost use Rattle.coko_text.specs.RuleReaders.{law_at, step_at, steps_at};

use crate::paths::path_of;
use crate::tokens::{after_sign, after_word, name_of};
use kola_base::{Lexemes, Sign, TermWord as Word, expect_sign, expect_word};
use kola_core::{Items, Name};
use kola_parse::Stop;
use kola_rule::{Step, Steps};
use kola_term::MetaCtx;
use kola_text::side_of;
use std::alloc::Global;

/// The rule that a step takes, and whether it takes it from right to left.
fn law_of<'a>(
    alloc: Global,
    tokens: Lexemes<'a>,
) -> Result<((bool, Name), Lexemes<'a>), Stop<Lexemes<'a>>>
    ensures { Gives (λ x. x) result (law_at tokens.entry) }
{
    match after_word(Word::Rev.spelling(), &tokens) {
        Some(rest) => {
            let (name, rest) = name_of(alloc, rest)?;
            Ok(((true, name), rest))
        }
        None => {
            let (name, rest) = name_of(alloc, tokens)?;
            Ok(((false, name), rest))
        }
    }
}

/// A step behind its sign.
fn step_of<'a>(
    alloc: Global,
    tokens: Lexemes<'a>,
    vars: &MetaCtx,
    levels: usize,
) -> Result<(Step, Lexemes<'a>), Stop<Lexemes<'a>>>
    ensures { Gives (λ x. (step_tree x.0, x.1)) result (step_at (context_of vars.now) levels tokens.entry) }
{
    let (term, rest) = side_of(alloc, tokens, vars, levels)?;
    let rest = expect_word(Word::By.spelling(), rest)?;
    let ((rev, law), rest) = law_of(alloc, rest)?;
    let rest = expect_word(Word::At.spelling(), rest)?;
    let (path, rest) = path_of(alloc, rest)?;
    Ok((
        Step {
            term: Box::into_inner(term),
            law,
            rev,
            path,
        },
        rest,
    ))
}

/// One more step behind its sign, or `None` where there is no such sign.
fn next_step<'a>(
    alloc: Global,
    tokens: Lexemes<'a>,
    vars: &MetaCtx,
    levels: usize,
) -> Result<(Option<Step>, Lexemes<'a>), Stop<Lexemes<'a>>>
    ensures { Gives (λ x. (option_map step_tree x.0, x.1)) result
        (next_at (sign signs.Equal) (step_at (context_of vars.now) levels) tokens.entry) }
{
    match after_sign(Sign::Equal, &tokens) {
        Some(rest) => {
            let (step, rest) = step_of(alloc, rest, vars, levels)?;
            Ok((Some(step), rest))
        }
        None => Ok((None, tokens)),
    }
}

/// The steps behind their signs.
fn all_steps_of<'a>(
    alloc: Global,
    tokens: Lexemes<'a>,
    vars: &MetaCtx,
    levels: usize,
) -> Result<(Steps, Lexemes<'a>), Stop<Lexemes<'a>>>
    ensures { Gives (λ x. (map step_tree x.0, x.1)) result
        (items_at (led (sign signs.Equal) (step_at (context_of vars.now) levels)) tokens.entry) }
{
    let mut steps = Items::new(alloc);
    let mut rest = tokens;
    loop {
        let (next, behind) = next_step(alloc, rest, vars, levels)?;
        rest = behind;
        match next {
            Some(step) => steps.push(step)?,
            None => return Ok((steps, rest)),
        }
    }
}

/// The steps of a proof, up to the word that ends it, which is behind them.
pub(crate) fn steps_of<'a>(
    alloc: Global,
    tokens: Lexemes<'a>,
    vars: &MetaCtx,
    levels: usize,
) -> Result<(Steps, Lexemes<'a>), Stop<Lexemes<'a>>>
    ensures { Gives (λ x. (map step_tree x.0, x.1)) result (steps_at (context_of vars.now) levels tokens.entry) }
{
    let (steps, rest) = all_steps_of(alloc, tokens, vars, levels)?;
    let rest = expect_word(Word::Qed.spelling(), rest)?;
    Ok((steps, rest))
}

//! Rules with their proofs, from tokens.

ghost use Rattle.std.specs.Prelude.{◌≡◌, map, ◌+◌, ◌<◌};
ghost use Rattle.std.specs.Option.{option_map};
ghost use Rattle.kola_base.specs.declared.term_word.TermWord.TheVariants as words;
ghost use Rattle.kola_parse.specs.Given.{Gives};
ghost use Rattle.kola_parse.specs.Reader.{whole};
ghost use Rattle.kola_rule.specs.RuleViews.{step_tree, draft_tree};
ghost use Rattle.kola_term.specs.ContextView.{context_of};
ghost use Rattle.coko_text.specs.Limits.{term_levels};
ghost use Rattle.coko_text.specs.RuleGrammar.{draft_of};
ghost use Rattle.coko_text.specs.LedReaders.{led, items_at, next_at};
ghost use Rattle.coko_text.specs.RuleReaders.{is_word, head_at, sides_at, body_at, draft_at, file_at};
ghost use Rattle.coko_text.specs.RuleViews.{head_view, sides_view};

use crate::steps::steps_of;
use crate::tokens::{after_word, name_of};
use crate::types::type_of;
use crate::vars::vars_of;
use crate::when::when_of;
use kola_base::{Lexemes, Sign, TermWord as Word, expect_sign, expect_word};
use kola_core::{Items, Name, Names};
use kola_parse::{Stop, stray};
use kola_rule::{Draft, Drafts, Rule, Steps};
use kola_term::{MetaCtx, Term};
use kola_text::side_of;
use kola_values::Ty;
use std::alloc::Global;

/// How many more levels terms have than types.
const MORE_LEVELS: usize = 156;

/// What stands before the sides of a rule.
#[derive(Drop)]
pub(crate) struct Head {
    name: Name,
    vars: MetaCtx,
    input: Box<Ty>,
    when: Names,
}

/// The sides of a rule and the first term of its proof.
#[derive(Drop)]
pub(crate) struct Sides {
    left: Box<Term>,
    right: Box<Term>,
    first: Box<Term>,
}

fn head_of<'a>(
    alloc: Global,
    tokens: Lexemes<'a>,
    levels: usize,
) -> Result<(Head, Lexemes<'a>), Stop<Lexemes<'a>>>
    ensures { Gives (λ x. (head_view x.0, x.1)) result (head_at levels tokens.entry) }
{
    let (name, rest) = name_of(alloc, tokens)?;
    let rest = expect_sign(Sign::Open, rest)?;
    let (vars, rest) = vars_of(alloc, rest, levels)?;
    let rest = expect_word(Word::At.spelling(), rest)?;
    let (input, rest) = type_of(alloc, rest, levels)?;
    let (when, rest) = when_of(alloc, rest)?;
    Ok((
        Head {
            name,
            vars,
            input,
            when,
        },
        rest,
    ))
}

fn sides_of<'a>(
    alloc: Global,
    tokens: Lexemes<'a>,
    vars: &MetaCtx,
    levels: usize,
) -> Result<(Sides, Lexemes<'a>), Stop<Lexemes<'a>>>
    ensures { Gives (λ x. (sides_view x.0, x.1)) result (sides_at (context_of vars.now) levels tokens.entry) }
{
    let (left, rest) = side_of(alloc, tokens, vars, levels)?;
    let rest = expect_sign(Sign::Equal, rest)?;
    let (right, rest) = side_of(alloc, rest, vars, levels)?;
    let rest = expect_word(Word::Proof.spelling(), rest)?;
    let (first, rest) = side_of(alloc, rest, vars, levels)?;
    Ok((Sides { left, right, first }, rest))
}

/// A rule with its proof, of its parts.
fn draft_with(head: Head, sides: Sides, steps: Steps) -> Draft
    ensures { draft_tree result ≡ draft_of (head_view head) (sides_view sides) (map step_tree steps) }
{
    let Head {
        name,
        vars,
        input,
        when,
    } = head;
    let Sides { left, right, first } = sides;
    Draft {
        rule: Rule {
            name,
            vars,
            input: Box::into_inner(input),
            when,
            left: Box::into_inner(left),
            right: Box::into_inner(right),
        },
        first: Box::into_inner(first),
        steps,
    }
}

/// A rule with its proof, behind its head.
fn body_of<'a>(
    alloc: Global,
    head: Head,
    tokens: Lexemes<'a>,
    levels: usize,
) -> Result<(Draft, Lexemes<'a>), Stop<Lexemes<'a>>>
    ensures { Gives (λ x. (draft_tree x.0, x.1)) result (body_at (head_view head) levels tokens.entry) }
{
    let (sides, rest) = sides_of(alloc, tokens, &head.vars, levels)?;
    let (steps, rest) = steps_of(alloc, rest, &head.vars, levels)?;
    Ok((draft_with(head, sides, steps), rest))
}

/// A rule with its proof, behind its word.
fn draft_of<'a>(
    alloc: Global,
    tokens: Lexemes<'a>,
    levels: usize,
) -> Result<(Draft, Lexemes<'a>), Stop<Lexemes<'a>>>
    requires { levels < 1000 }
    ensures { Gives (λ x. (draft_tree x.0, x.1)) result (draft_at levels tokens.entry) }
{
    let (head, rest) = head_of(alloc, tokens, levels)?;
    body_of(alloc, head, rest, levels + MORE_LEVELS)
}

/// One more rule, or `None` where no rule begins.
fn next_draft<'a>(
    alloc: Global,
    tokens: Lexemes<'a>,
    levels: usize,
) -> Result<(Option<Draft>, Lexemes<'a>), Stop<Lexemes<'a>>>
    requires { levels < 1000 }
    ensures { Gives (λ x. (option_map draft_tree x.0, x.1)) result
        (next_at (is_word words.Rule) (draft_at levels) tokens.entry) }
{
    match after_word(Word::Rule.spelling(), &tokens) {
        Some(rest) => {
            let (draft, rest) = draft_of(alloc, rest, levels)?;
            Ok((Some(draft), rest))
        }
        None => Ok((None, tokens)),
    }
}

/// The rules, up to what begins none.
fn drafts_of<'a>(
    alloc: Global,
    tokens: Lexemes<'a>,
    levels: usize,
) -> Result<(Drafts, Lexemes<'a>), Stop<Lexemes<'a>>>
    requires { levels < 1000 }
    ensures { Gives (λ x. (map draft_tree x.0, x.1)) result (file_at levels tokens.entry) }
{
    let mut drafts = Items::new(alloc);
    let mut rest = tokens;
    loop {
        let (next, behind) = next_draft(alloc, rest, levels)?;
        rest = behind;
        match next {
            Some(draft) => drafts.push(draft)?,
            None => return Ok((drafts, rest)),
        }
    }
}

/// All of the lexemes as rules, where so many constructors may stand round a name of a type.
pub(crate) fn file_of<'a>(
    alloc: Global,
    tokens: Lexemes<'a>,
    levels: usize,
) -> Result<Drafts, Stop<Lexemes<'a>>>
    requires { levels < 1000 }
    ensures { Gives (map draft_tree) result (whole (file_at levels) tokens.entry) }
{
    let (drafts, rest) = drafts_of(alloc, tokens, levels)?;
    match rest.split() {
        Some(_) => stray(rest),
        None => Ok(drafts),
    }
}

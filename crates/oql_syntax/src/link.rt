//! How expressions are joined, and how the text of one ended.

ghost use Rattle.std.specs.Prelude.{◌≡◌, List, IfOk};
ghost use Rattle.kola_parse.specs.Given.{Gives};
ghost use Rattle.oql_syntax.specs.QueryReaders.{FieldParts, last_move, field_move, field_end};
ghost use Rattle.kola_parse.specs.Reader.{eat};
ghost use Rattle.oql_syntax.specs.Alphabet.{kind};
ghost use Rattle.std.specs.Option.{option_map};
ghost use Rattle.kola_base.specs.AlphabetViews.{symbol_view};
ghost use Rattle.oql_tree.specs.QueryTrees.{QName, QExists, QForAll};
ghost use Rattle.oql_syntax.specs.Tails.{opened};
ghost use Rattle.oql_syntax.specs.QueryReaders.{chain_tree, union_tree, comparison_of};
ghost use Rattle.oql_syntax.specs.QueryForms.{lead, is_select, kind_name, now, behind_in, behind_colon, word_form};
ghost use Rattle.oql_syntax.specs.TailViews.{tail_view, next_view, round_view, ranges_with, tail_with, joint_form, quantifier_form};

use crate::look::{Cursor, first_of};
use crate::operand::boxed;
use crate::word::QueryWord;
use kola_base::{Lexemes, Named, Sign as Mark, Symbol, expect_sign, name_of};
use kola_core::{Memory, Name};
use kola_parse::{Stop, stray};
use oql_tree::{BoxedExpr, Chain, Form, Ranges, SetChain, Sign};
use std::alloc::Global;

/// How the text of an expression ended: what may go on it depends on this alone.
#[derive(Clone, Copy)]
pub(crate) enum Tail<'a> {
    /// In a closed operand, to which a comparison may still come.
    Plain,
    /// In a comparison.
    Compared,
    /// The same in the body of a quantifier or in the condition of a select.
    OpenPlain,
    OpenCompared,
    /// In the ranges of a select; true says that the last one is written with `as`.
    Ranged(bool),
    /// In the ranges of a select, a comma, and then the next label of the struct around it and its colon.
    Labelled(Named<'a>),
}

/// The tail behind the body of a quantifier, or the condition of a select.
pub(crate) fn opened<'a>(tail: Tail<'a>) -> Tail<'a>
    ensures { tail_view result ≡ opened (tail_view tail.entry) }
{
    match tail {
        Tail::Plain => Tail::OpenPlain,
        Tail::Compared => Tail::OpenCompared,
        _ => tail,
    }
}

/// A chain of operands with one sign.
#[derive(Clone, Copy)]
pub(crate) enum Joint {
    Intersect,
    And,
    Or,
}

/// The first operand with the others; where there is no other, the operand itself.
pub(crate) fn linked(
    alloc: Global,
    by: Joint,
    e: BoxedExpr,
    links: Chain,
) -> Result<BoxedExpr, Memory>
    ensures { IfOk result (λ b. b ≡ chain_tree (joint_form by) e links) }
{
    match links.first_place() {
        None => Ok(e),
        Some(at) => match by {
            Joint::Intersect => boxed(alloc, at, Form::Intersect(e, links)),
            Joint::And => boxed(alloc, at, Form::And(e, links)),
            Joint::Or => boxed(alloc, at, Form::Or(e, links)),
        },
    }
}

/// The same for `union` and `except`.
pub(crate) fn set_linked(alloc: Global, e: BoxedExpr, links: SetChain) -> Result<BoxedExpr, Memory>
    ensures { IfOk result (λ b. b ≡ union_tree e links) }
{
    match links.first_place() {
        None => Ok(e),
        Some(at) => boxed(alloc, at, Form::UnionExcept(e, links)),
    }
}

/// What an operand of `and` begins with.
#[derive(Clone, Copy)]
pub(crate) enum Lead {
    Not,
    Exists,
    /// `for`
    All,
    /// A first operand.
    Other,
}

pub(crate) fn lead_of(symbol: Symbol<'_, QueryWord>) -> Lead
    ensures { result ≡ lead (symbol_view symbol.entry) }
{
    match symbol {
        Symbol::Word(QueryWord::Not) => Lead::Not,
        Symbol::Word(QueryWord::Exists) => Lead::Exists,
        Symbol::Word(QueryWord::For) => Lead::All,
        _ => Lead::Other,
    }
}

pub(crate) fn is_select(symbol: Symbol<'_, QueryWord>) -> bool
    ensures { result ≡ is_select (symbol_view symbol.entry) }
{
    match symbol {
        Symbol::Word(QueryWord::Select) => true,
        _ => false,
    }
}

/// A quantifier: `for all` where `each`, else `exists`, with the place of its first word and its variable.
#[derive(Clone, Copy)]
pub(crate) struct Quantifier<'a> {
    pub each: bool,
    pub at: usize,
    pub name: &'a str,
}

impl<'a> Quantifier<'a> {
    /// `exists`.
    pub fn some(at: usize, name: &'a str) -> Quantifier<'a>
        ensures { quantifier_form result ≡ QExists at name.now }
    {
        Quantifier {
            each: false,
            at,
            name,
        }
    }

    /// `for all`.
    pub fn every(at: usize, name: &'a str) -> Quantifier<'a>
        ensures { quantifier_form result ≡ QForAll at name.now }
    {
        Quantifier {
            each: true,
            at,
            name,
        }
    }
}

/// The quantifier over the range, with the body.
pub(crate) fn quantifier_of(
    alloc: Global,
    by: Quantifier<'_>,
    range: BoxedExpr,
    body: BoxedExpr,
) -> Result<BoxedExpr, Memory>
    ensures { IfOk result (λ b. b ≡ quantifier_form by.entry range body) }
{
    let name = Name::from_text(alloc, by.name)?;
    if by.each {
        boxed(alloc, by.at, Form::ForAll(name, range, body))
    } else {
        boxed(alloc, by.at, Form::Exists(name, range, body))
    }
}

/// The sign of a comparison that a token is, if it is one.
pub(crate) fn comparison_of(symbol: Symbol<'_, QueryWord>) -> Option<Sign>
    ensures { result ≡ comparison_of (symbol_view symbol.entry) }
{
    match symbol {
        Symbol::Sign(Mark::Equal) => Some(Sign::Eq),
        Symbol::Sign(Mark::NotEqual) => Some(Sign::Ne),
        Symbol::Sign(Mark::Less) => Some(Sign::Lt),
        Symbol::Sign(Mark::LessEqual) => Some(Sign::Le),
        Symbol::Sign(Mark::Greater) => Some(Sign::Gt),
        Symbol::Sign(Mark::GreaterEqual) => Some(Sign::Ge),
        Symbol::Word(QueryWord::In) => Some(Sign::Member),
        _ => None,
    }
}

/// A range of a select: its variable, what it ranges over, and whether it is written with `as`.
#[derive(Drop)]
pub(crate) struct Range<'a> {
    pub x: Named<'a>,
    pub e: BoxedExpr,
    pub with_as: bool,
}

/// The name that a token is, which is no word of queries.
pub(crate) fn name_in<'a>(symbol: Symbol<'a, QueryWord>) -> Option<&'a str>
    ensures { option_map now result ≡ kind_name (symbol_view symbol.entry) }
{
    match symbol {
        Symbol::Name(name) => Some(name),
        _ => None,
    }
}

/// The name as an expression.
pub(crate) fn name_at(alloc: Global, x: Named<'_>) -> Result<BoxedExpr, Memory>
    ensures { IfOk result (λ b. b ≡ QName x.entry.at x.entry.name.now) }
{
    boxed(alloc, x.at, Form::Name(Name::from_text(alloc, x.name)?))
}

/// What stands behind `in`, where that word comes first.
pub(crate) fn behind_in<'a>(tokens: &Cursor<'a>) -> Option<Lexemes<'a>>
    ensures { result ≡ behind_in tokens.now }
{
    let first = tokens.first()?;
    match first.symbol() {
        Symbol::Word(QueryWord::In) => Some(first.rest()),
        _ => None,
    }
}

/// What stands behind a comma in a field of a struct: another range, or the next label of the struct with its colon.
#[derive(Drop)]
pub(crate) enum Next<'a> {
    Range(Range<'a>),
    Label(Named<'a>),
}

/// What stands behind a colon, where it comes first.
pub(crate) fn behind_colon<'a>(tokens: &Cursor<'a>) -> Option<Lexemes<'a>>
    ensures { result ≡ behind_colon tokens.now }
{
    let first = tokens.first()?;
    match first.symbol() {
        Symbol::Sign(Mark::Colon) => Some(first.rest()),
        _ => None,
    }
}

/// What a word begins, where no colon stands behind it.
#[derive(Clone, Copy)]
pub(crate) enum WordForm {
    Name,
    Truth(bool),
    Set,
    Struct,
    Flatten,
    SomeMember,
    /// Nothing.
    Other,
}

pub(crate) fn word_form(symbol: Symbol<'_, QueryWord>) -> WordForm
    ensures { result ≡ word_form (symbol_view symbol.entry) }
{
    match symbol {
        Symbol::Name(_) => WordForm::Name,
        Symbol::Word(QueryWord::True) => WordForm::Truth(true),
        Symbol::Word(QueryWord::False) => WordForm::Truth(false),
        Symbol::Word(QueryWord::Set) => WordForm::Set,
        Symbol::Word(QueryWord::Struct) => WordForm::Struct,
        Symbol::Word(QueryWord::Flatten) => WordForm::Flatten,
        Symbol::Word(QueryWord::Exists) => WordForm::SomeMember,
        _ => WordForm::Other,
    }
}

/// Takes what stood behind a comma to the ranges, and says how they end then.
pub(crate) fn take_next<'a>(
    alloc: Global,
    ranges: &mut Ranges,
    next: Next<'a>,
) -> Result<Tail<'a>, Memory>
    ensures taken { IfOk result (λ z. ranges.new ≡ ranges_with ranges.old (next_view next.entry)) }
    ensures ended { IfOk result (λ z. tail_view z ≡ tail_with (next_view next.entry)) }
{
    match next {
        Next::Range(range) => {
            ranges.push(Name::from_text(alloc, range.x.name)?, range.x.at, range.e)?;
            Ok(Tail::Ranged(range.with_as))
        }
        Next::Label(label) => Ok(Tail::Labelled(label)),
    }
}

/// Behind ranges in a field: the parenthesis.
fn last_end_of<'a>(
    tokens: Lexemes<'a>,
) -> Result<(Option<Named<'a>>, Lexemes<'a>), Stop<Lexemes<'a>>>
    ensures { (fs : List FieldParts) → Gives (λ x. (round_view fs x.0, x.1)) result
        (eat (λ t. last_move fs (kind t)) tokens.entry) }
{
    let first = first_of(tokens)?;
    match first.symbol() {
        Symbol::Sign(Mark::Close) => Ok((None, first.rest())),
        _ => return stray(first.tokens()),
    }
}

/// Behind any other field: a comma, the next label and its colon, or the parenthesis.
fn next_end_of<'a>(
    tokens: Lexemes<'a>,
) -> Result<(Option<Named<'a>>, Lexemes<'a>), Stop<Lexemes<'a>>>
    ensures { (fs : List FieldParts) → Gives (λ x. (round_view fs x.0, x.1)) result
        (eat (λ t. field_move fs (kind t)) tokens.entry) }
{
    let first = first_of(tokens)?;
    match first.symbol() {
        Symbol::Sign(Mark::Close) => Ok((None, first.rest())),
        Symbol::Sign(Mark::Comma) => {
            let (label, rest) = name_of(first.rest())?;
            let rest = expect_sign(Mark::Colon, rest)?;
            Ok((Some(label), rest))
        }
        _ => return stray(first.tokens()),
    }
}

/// Behind a field that ended so: the next label, its colon taken, or `None` where the parenthesis closes.
pub(crate) fn field_end_of<'a>(
    tail: Tail<'a>,
    tokens: Lexemes<'a>,
) -> Result<(Option<Named<'a>>, Lexemes<'a>), Stop<Lexemes<'a>>>
    ensures { (fs : List FieldParts) → Gives (λ x. (round_view fs x.0, x.1)) result
        (field_end fs (tail_view tail.entry) tokens.entry) }
{
    match tail {
        Tail::Labelled(label) => Ok((Some(label), tokens)),
        Tail::Ranged(_) => last_end_of(tokens),
        _ => next_end_of(tokens),
    }
}

//! First operands from tokens: literals, what stands in parentheses, and paths.

ghost use Rattle.std.specs.Prelude.{◌≡◌, ◌<◌, [], ℕ, IfOk, IsSome};
ghost use Rattle.std.specs.Option.{option_map};
ghost use Rattle.kola_parse.specs.Reader.{eat_at, chain, done, link_at};
ghost use Rattle.kola_parse.specs.Given.{Gives, GoesOn};
ghost use Rattle.kola_parse.specs.Kinds.{ahead, deeper};
ghost use Rattle.kola_parse.specs.Listed.{listed};
ghost use Rattle.kola_base.specs.Alphabets.{sign};
ghost use Rattle.kola_base.specs.NamedViews.{named_view};
ghost use Rattle.kola_base.specs.AlphabetViews.{symbol_view};
ghost use Rattle.kola_base.specs.declared.sign.Sign.TheVariants as signs;
ghost use Rattle.oql_syntax.specs.Alphabet.{kind};
ghost use Rattle.oql_tree.specs.QueryTrees.{QueryTree};
ghost use Rattle.oql_tree.specs.QueryViews.{lit_tree, literal_entry, literal_entries, query_tree};
ghost use Rattle.oql_syntax.specs.QueryReaders.{variable, literal_of, literal, next_literal, literals, set_in, below, prim_move, label_move, add_label, path_tree, path_by, PathParts};
ghost use Rattle.oql_syntax.specs.QueryForms.{operand_rest, parts_of, IsOperandBelow, some_label};

use crate::look::{Cursor, First, first_of};
use crate::word::QueryWord;
use kola_base::{Lexemes, Named, Sign, Symbol, expect_sign, name_of};
use kola_core::{Items, Memory, Name};
use kola_parse::{Stop, Why, inner_of, stray};
use oql_tree::{BoxedExpr, Expr, Form, Labels, Lit, LitList};
use std::alloc::Global;

/// An expression of the form at the place, in a box.
pub(crate) fn boxed(alloc: Global, at: usize, form: Form) -> Result<BoxedExpr, Memory>
    ensures { IfOk result (λ b. b ≡ query_tree (record { at = at; form = form })) }
{
    BoxedExpr::new(alloc, Expr { at, form })
}

// ---- literals

/// The literal that a token is, if it is one.
fn literal_of(alloc: Global, symbol: Symbol<'_, QueryWord>) -> Result<Option<Lit>, Memory>
    ensures { IfOk result (λ o. option_map lit_tree o ≡ literal_of (symbol_view symbol.entry)) }
{
    match symbol {
        Symbol::Number(value) => Ok(Some(Lit::Int(value))),
        Symbol::Quoted(quote) => Ok(Some(Lit::Str(quote.to_text(alloc)?))),
        Symbol::Word(QueryWord::True) => Ok(Some(Lit::Bool(true))),
        Symbol::Word(QueryWord::False) => Ok(Some(Lit::Bool(false))),
        _ => Ok(None),
    }
}

/// A literal with its place.
fn literal_at<'a>(
    alloc: Global,
    tokens: Lexemes<'a>,
) -> Result<((Lit, usize), Lexemes<'a>), Stop<Lexemes<'a>>>
    ensures { Gives (λ x. (literal_entry x.0, x.1)) result (literal tokens.entry) }
{
    let first = first_of(tokens)?;
    match literal_of(alloc, first.symbol())? {
        Some(literal) => Ok(((literal, first.at()), first.rest())),
        None => stray(first.tokens()),
    }
}

/// One more literal, or `None` where the parenthesis closes.
fn next_literal<'a>(
    alloc: Global,
    tokens: Lexemes<'a>,
) -> Result<(Option<(Lit, usize)>, Lexemes<'a>), Stop<Lexemes<'a>>>
    ensures { Gives (λ x. (option_map literal_entry x.0, x.1)) result (next_literal tokens.entry) }
{
    let first = first_of(tokens)?;
    match first.symbol() {
        Symbol::Sign(Sign::Comma) => {
            let (literal, rest) = literal_at(alloc, first.rest())?;
            Ok((Some(literal), rest))
        }
        Symbol::Sign(Sign::Close) => Ok((None, first.rest())),
        _ => stray(first.tokens()),
    }
}

/// The literals behind the first one up to the parenthesis, which is behind them.
fn more_literals<'a>(
    alloc: Global,
    tokens: Lexemes<'a>,
) -> Result<(Vec<(Lit, usize)>, Lexemes<'a>), Stop<Lexemes<'a>>>
    ensures { Gives (λ x. (literal_entries x.0.items, x.1)) result (listed next_literal [] tokens.entry) }
{
    let mut literals = Vec::new(alloc);
    let mut rest = tokens;
    loop {
        let (next, behind) = next_literal(alloc, rest)?;
        rest = behind;
        match next {
            Some(literal) => literals.push(literal)?,
            None => return Ok((literals, rest)),
        }
    }
}

/// The literals up to the parenthesis, which is behind them.
fn literals_of<'a>(
    alloc: Global,
    tokens: Lexemes<'a>,
) -> Result<(Vec<(Lit, usize)>, Lexemes<'a>), Stop<Lexemes<'a>>>
    ensures { Gives (λ x. (literal_entries x.0.items, x.1)) result (literals tokens.entry) }
{
    let (first, rest) = literal_at(alloc, tokens)?;
    let (mut literals, rest) = more_literals(alloc, rest)?;
    literals.insert(0, first)?;
    Ok((literals, rest))
}

/// What stands in the parentheses behind the word `set` at the place.
pub(crate) fn set_of<'a>(
    alloc: Global,
    at: usize,
    tokens: Lexemes<'a>,
) -> Result<(BoxedExpr, Lexemes<'a>), Stop<Lexemes<'a>>>
    ensures { Gives (λ x. x) result (set_in at tokens.entry) }
{
    let (literals, rest) = literals_of(alloc, tokens)?;
    let e = boxed(alloc, at, Form::SetOf(Items::from_vec(literals)))?;
    Ok((e, rest))
}

// ---- first operands

/// What stands in parentheses, behind a word at the place or none.
#[derive(Clone, Copy)]
pub(crate) enum Parts {
    Struct(usize),
    Flatten(usize),
    SomeMember(usize),
    Plain,
}

/// How a first operand goes on behind its first token: not at all, or with parts in parentheses, below which there are so many levels.
#[derive(Drop)]
pub(crate) enum Operand {
    Whole(BoxedExpr),
    Parts(Parts, usize),
}

/// Parts one level below, behind a word and the parenthesis.
fn parts_in<'a>(
    parts: Parts,
    first: &First<'a>,
    levels: usize,
) -> Result<(Operand, Lexemes<'a>), Stop<Lexemes<'a>>>
    ensures read { (n : ℕ) → GoesOn (λ x. operand_rest x.0 n x.1) result (eat_at
        (deeper (below n levels) (λ i. ahead (sign signs.Open) (parts_of parts i))) first.now.0 first.now.1) }
    ensures below { IfOk result (λ x. IsOperandBelow levels x.0) }
{
    let inner = inner_of(levels, first.tokens())?;
    let rest = expect_sign(Sign::Open, first.rest())?;
    Ok((Operand::Parts(parts, inner), rest))
}

/// The first operand of one token at the place.
fn whole(alloc: Global, at: usize, form: Form) -> Result<Operand, Memory>
    ensures { IfOk result (λ o. o ≡ Operand.Whole (query_tree (record { at = at; form = form }))) }
{
    let e = boxed(alloc, at, form)?;
    Ok(Operand::Whole(e))
}

/// How a first operand goes on behind its first token.
pub(crate) fn operand_of<'a>(
    alloc: Global,
    first: &First<'a>,
    levels: usize,
) -> Result<(Operand, Lexemes<'a>), Stop<Lexemes<'a>>>
    ensures read { (n : ℕ) → GoesOn (λ x. operand_rest x.0 n x.1) result (eat_at
        (prim_move (below n levels) (kind first.now.0) first.now.0.at) first.now.0 first.now.1) }
    ensures below { IfOk result (λ x. IsOperandBelow levels x.0) }
{
    let at = first.at();
    match first.symbol() {
        Symbol::Name(name) => {
            let o = whole(alloc, at, Form::Name(Name::from_text(alloc, name)?))?;
            Ok((o, first.rest()))
        }
        Symbol::Number(value) => {
            let o = whole(alloc, at, Form::Literal(Lit::Int(value)))?;
            Ok((o, first.rest()))
        }
        Symbol::Quoted(quote) => {
            let o = whole(alloc, at, Form::Literal(Lit::Str(quote.to_text(alloc)?)))?;
            Ok((o, first.rest()))
        }
        Symbol::Word(QueryWord::True) => {
            let o = whole(alloc, at, Form::Literal(Lit::Bool(true)))?;
            Ok((o, first.rest()))
        }
        Symbol::Word(QueryWord::False) => {
            let o = whole(alloc, at, Form::Literal(Lit::Bool(false)))?;
            Ok((o, first.rest()))
        }
        Symbol::Word(QueryWord::Set) => {
            let rest = expect_sign(Sign::Open, first.rest())?;
            let (e, rest) = set_of(alloc, at, rest)?;
            Ok((Operand::Whole(e), rest))
        }
        Symbol::Word(QueryWord::Struct) => parts_in(Parts::Struct(at), first, levels),
        Symbol::Word(QueryWord::Flatten) => parts_in(Parts::Flatten(at), first, levels),
        Symbol::Word(QueryWord::Exists) => parts_in(Parts::SomeMember(at), first, levels),
        Symbol::Sign(Sign::Open) => {
            let inner = inner_of(levels, first.tokens())?;
            Ok((Operand::Parts(Parts::Plain, inner), first.rest()))
        }
        _ => stray(first.tokens()),
    }
}

/// A name, which is no word of queries.
pub(crate) fn variable_of<'a>(
    tokens: Lexemes<'a>,
) -> Result<(Named<'a>, Lexemes<'a>), Stop<Lexemes<'a>>>
    ensures { Gives (λ x. (named_view x.0, x.1)) result (variable tokens.entry) }
{
    let first = first_of(tokens)?;
    let at = first.at();
    let Symbol::Name(name) = first.symbol() else {
        return stray(first.tokens());
    };
    Ok((Named { name, at }, first.rest()))
}

// ---- paths

/// The next label of a path with what stands behind it, where so many may come.
fn next_label<'a>(
    tokens: &Cursor<'a>,
    left: usize,
) -> Result<Option<(Named<'a>, Lexemes<'a>)>, Stop<Lexemes<'a>>>
    ensures link { Gives some_label result (link_at (λ t. label_move (kind t)) left tokens.now) }
    ensures left { IfOk result (λ o. IsSome o → 0 < left) }
{
    let Some(first) = tokens.first() else {
        return Ok(None);
    };
    match first.symbol() {
        Symbol::Sign(Sign::Dot | Sign::Arrow) => {
            if left == 0 {
                return Err(Stop::Before(Why::TooDeep, first.tokens()));
            }
            let (label, rest) = name_of(first.rest())?;
            Ok(Some((label, rest)))
        }
        _ => Ok(None),
    }
}

/// The labels behind the operand `_e`, and what stands behind them.
fn labels_of<'a>(
    alloc: Global,
    _e: &BoxedExpr,
    tokens: Lexemes<'a>,
    links: usize,
) -> Result<(Vec<(Name, usize)>, Cursor<'a>), Stop<Lexemes<'a>>>
    ensures { Gives (λ x. ((_e.now, x.0.items), x.1)) result
        (chain (λ (x : PathParts) t. label_move (kind t)) add_label links (_e.now, []) tokens.entry) }
{
    let mut labels = Vec::new(alloc);
    let mut rest = Cursor::of(tokens);
    let mut left = links;
    while let Some((label, behind)) = next_label(&rest, left)? {
        labels.push((Name::from_text(alloc, label.name)?, label.at))?;
        rest = Cursor::of(behind);
        left -= 1;
    }
    Ok((labels, rest))
}

/// The operand with its labels.
fn with_labels(alloc: Global, e: BoxedExpr, labels: Vec<(Name, usize)>) -> Result<BoxedExpr, Memory>
    ensures { IfOk result (λ b. b ≡ path_tree e labels.items) }
{
    match labels.first() {
        None => Ok(e),
        Some((_, at)) => {
            let at = *at;
            boxed(alloc, at, Form::Path(e, Items::from_vec(labels)))
        }
    }
}

/// A path from its first operand, and what stands behind it.
pub(crate) fn path_of<'a>(
    alloc: Global,
    e: BoxedExpr,
    tokens: Lexemes<'a>,
    links: usize,
) -> Result<(BoxedExpr, Cursor<'a>), Stop<Lexemes<'a>>>
    ensures { Gives (λ x. x) result (path_by links (done e) tokens.entry) }
{
    let (labels, rest) = labels_of(alloc, &e, tokens, links)?;
    let path = with_labels(alloc, e, labels)?;
    Ok((path, rest))
}

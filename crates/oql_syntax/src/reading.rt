//! Queries from tokens.

ghost use Rattle.std.specs.Prelude.{◌≡◌, ◌<◌, [], IfOk, IsSome, true, false, suc};
ghost use Rattle.kola_parse.specs.Reader.{eat, eat_at, chain, done, link_at, many, other, rounds, then};
ghost use Rattle.kola_parse.specs.Kinds.{ahead};
ghost use Rattle.kola_parse.specs.Given.{Gives};
ghost use Rattle.oql_syntax.specs.Alphabet.{kind};
ghost use Rattle.oql_tree.specs.QueryTrees.{QName, QForAll, NoWhere};
ghost use Rattle.kola_base.specs.Named.{name_of};
ghost use Rattle.kola_base.specs.NamedViews.{named_view};
ghost use Rattle.oql_syntax.specs.declared.word.QueryWord.TheVariants as words;
ghost use Rattle.oql_syntax.specs.QueryReaders.{Operands, SetOperands, OperandsTailed, level, below, is_word, variable, closed, prim_move, prim, path_by, intersect_move, add_operand, meet_from, union_move, add_set_operand, sets_from, sets, comparison_of, comparison_by, cmp_from, quantified, exists_move, opennot_move, opennot, and_move, and_from, openand, or_move, or_from, more_operands, where_move, select_rest, select, as_from, in_move, range_move, range_from, next_move, next, comma_move, more_ranges, first_range, RangesTailed, ranges, field, first_field, fields, full, ending, query};
ghost use Rattle.oql_syntax.specs.QueryForms.{parts_of, set_paren, parts_paren, word_range};
ghost use Rattle.oql_syntax.specs.TailViews.{tail_view, range_view, next_view, quantifier_form, some_link, some_set_link, some_comparison, some_tailed, some_next};

use crate::link::{
    Joint, Lead, Next, Quantifier, Range, Tail, WordForm, behind_colon, behind_in, comparison_of,
    field_end_of, is_select, lead_of, linked, name_at, name_in, opened, quantifier_of, set_linked,
    take_next, word_form,
};
use crate::look::{Cursor, First, expect_word, first_of};
use crate::operand::{Operand, Parts, boxed, operand_of, path_of, set_of, variable_of};
use crate::word::QueryWord;
use kola_base::{Lexemes, Named, Sign as Mark, Symbol, expect_sign, name_of};
use kola_core::Name;
use kola_parse::{Stop, Why, inner_of, stray};
use oql_tree::{BoxedExpr, Chain, Form, Lit, NamedExprs, Ranges, SetChain, Sign, StructList};
use std::alloc::Global;

// ---- first operands

/// An expression up to the parenthesis, and what stands behind it.
#[cycle(queries)]
fn closed_of<'a>(
    alloc: Global,
    tokens: Lexemes<'a>,
    links: usize,
    levels: usize,
) -> Result<(BoxedExpr, Lexemes<'a>), Stop<Lexemes<'a>>>
    ensures { Gives (λ x. x) result (closed (full links false (below links levels)) tokens.entry) }
{
    let (e, _, rest) = full_at(alloc, tokens, links, levels, false)?;
    let rest = expect_sign(Mark::Close, rest.tokens())?;
    Ok((e, rest))
}

/// Parts in parentheses, up to the closing one.
#[cycle(queries)]
fn parts_at<'a>(
    alloc: Global,
    parts: Parts,
    tokens: Lexemes<'a>,
    links: usize,
    levels: usize,
) -> Result<(BoxedExpr, Lexemes<'a>), Stop<Lexemes<'a>>>
    ensures { Gives (λ x. x) result (parts_of parts (level links (below links levels)) tokens.entry) }
{
    match parts {
        Parts::Struct(at) => {
            let (fields, rest) = fields_of(alloc, tokens, links, levels)?;
            let e = boxed(alloc, at, Form::Struct(fields))?;
            Ok((e, rest))
        }
        Parts::Flatten(at) => {
            let (e, rest) = closed_of(alloc, tokens, links, levels)?;
            let e = boxed(alloc, at, Form::Flatten(e))?;
            Ok((e, rest))
        }
        Parts::SomeMember(at) => {
            let (e, rest) = closed_of(alloc, tokens, links, levels)?;
            let e = boxed(alloc, at, Form::SomeMember(e))?;
            Ok((e, rest))
        }
        Parts::Plain => closed_of(alloc, tokens, links, levels),
    }
}

/// A first operand from its first token, and what stands behind it.
#[cycle(queries)]
fn prim_of<'a>(
    alloc: Global,
    first: &First<'a>,
    links: usize,
    levels: usize,
) -> Result<(BoxedExpr, Lexemes<'a>), Stop<Lexemes<'a>>>
    ensures { Gives (λ x. x) result (eat_at
        (prim_move (below links levels) (kind first.now.0) first.now.0.at) first.now.0 first.now.1) }
{
    let (operand, rest) = operand_of(alloc, first, levels)?;
    match operand {
        Operand::Whole(e) => Ok((e, rest)),
        Operand::Parts(parts, inner) => parts_at(alloc, parts, rest, links, inner),
    }
}

/// A path.
#[cycle(queries)]
fn path_at<'a>(
    alloc: Global,
    tokens: Lexemes<'a>,
    links: usize,
    levels: usize,
) -> Result<(BoxedExpr, Cursor<'a>), Stop<Lexemes<'a>>>
    ensures { Gives (λ x. x) result (path_by links (prim (below links levels)) tokens.entry) }
{
    let first = first_of(tokens)?;
    let (e, rest) = prim_of(alloc, &first, links, levels)?;
    path_of(alloc, e, rest, links)
}

// ---- chains of sets

/// The next operand of `intersect` with the place of the word and what stands behind it, where so many may come.
#[cycle(queries)]
fn next_intersect<'a>(
    alloc: Global,
    tokens: &Cursor<'a>,
    links: usize,
    levels: usize,
    left: usize,
) -> Result<Option<(usize, BoxedExpr, Cursor<'a>)>, Stop<Lexemes<'a>>>
    ensures link { Gives some_link result (link_at
        (λ t. intersect_move (path_by links (prim (below links levels))) t.at (kind t)) left tokens.now) }
    ensures left { IfOk result (λ o. IsSome o → 0 < left) }
{
    let Some(first) = tokens.first() else {
        return Ok(None);
    };
    let Symbol::Word(QueryWord::Intersect) = first.symbol() else {
        return Ok(None);
    };
    if left == 0 {
        return Err(Stop::Before(Why::TooDeep, first.tokens()));
    }
    let (e, rest) = path_at(alloc, first.rest(), links, levels)?;
    Ok(Some((first.at(), e, rest)))
}

/// The operands of `intersect` behind the first one, `_e`.
#[cycle(queries)]
fn intersects_of<'a>(
    alloc: Global,
    _e: &BoxedExpr,
    tokens: Cursor<'a>,
    links: usize,
    levels: usize,
) -> Result<(Chain, Cursor<'a>), Stop<Lexemes<'a>>>
    ensures { Gives (λ x. ((_e.now, x.0), x.1)) result (chain
        (λ (x : Operands) t. intersect_move (path_by links (prim (below links levels))) t.at (kind t)) add_operand links
        (_e.now, []) tokens.entry) }
{
    let mut operands = Chain::new(alloc);
    let mut rest = tokens;
    let mut left = links;
    while let Some((at, e, behind)) = next_intersect(alloc, &rest, links, levels, left)? {
        operands.push(at, e)?;
        rest = behind;
        left -= 1;
    }
    Ok((operands, rest))
}

/// A chain of `intersect` from its first operand.
#[cycle(queries)]
fn meet_of<'a>(
    alloc: Global,
    e: BoxedExpr,
    tokens: Lexemes<'a>,
    links: usize,
    levels: usize,
) -> Result<(BoxedExpr, Cursor<'a>), Stop<Lexemes<'a>>>
    ensures { Gives (λ x. x) result (meet_from links (below links levels) (done e) tokens.entry) }
{
    let (e, rest) = path_of(alloc, e, tokens, links)?;
    let (operands, rest) = intersects_of(alloc, &e, rest, links, levels)?;
    let e = linked(alloc, Joint::Intersect, e, operands)?;
    Ok((e, rest))
}

/// A chain of `intersect`.
#[cycle(queries)]
fn meet_at<'a>(
    alloc: Global,
    tokens: Lexemes<'a>,
    links: usize,
    levels: usize,
) -> Result<(BoxedExpr, Cursor<'a>), Stop<Lexemes<'a>>>
    ensures { Gives (λ x. x) result
        (meet_from links (below links levels) (prim (below links levels)) tokens.entry) }
{
    let first = first_of(tokens)?;
    let (e, rest) = prim_of(alloc, &first, links, levels)?;
    meet_of(alloc, e, rest, links, levels)
}

/// The next operand of `union` or `except`, with the place of the word, which of them it is, and what stands behind the operand, where
/// so many may come.
#[cycle(queries)]
fn next_union<'a>(
    alloc: Global,
    tokens: &Cursor<'a>,
    links: usize,
    levels: usize,
    left: usize,
) -> Result<Option<(usize, bool, BoxedExpr, Cursor<'a>)>, Stop<Lexemes<'a>>>
    ensures link { Gives some_set_link result (link_at
        (λ t. union_move (meet_from links (below links levels) (prim (below links levels))) t.at (kind t)) left
        tokens.now) }
    ensures left { IfOk result (λ o. IsSome o → 0 < left) }
{
    let Some(first) = tokens.first() else {
        return Ok(None);
    };
    let except = match first.symbol() {
        Symbol::Word(QueryWord::Union) => false,
        Symbol::Word(QueryWord::Except) => true,
        _ => return Ok(None),
    };
    if left == 0 {
        return Err(Stop::Before(Why::TooDeep, first.tokens()));
    }
    let (e, rest) = meet_at(alloc, first.rest(), links, levels)?;
    Ok(Some((first.at(), except, e, rest)))
}

/// The operands of `union` and `except` behind the first one, `_e`.
#[cycle(queries)]
fn unions_of<'a>(
    alloc: Global,
    _e: &BoxedExpr,
    tokens: Cursor<'a>,
    links: usize,
    levels: usize,
) -> Result<(SetChain, Cursor<'a>), Stop<Lexemes<'a>>>
    ensures { Gives (λ x. ((_e.now, x.0), x.1)) result (chain
        (λ (x : SetOperands) t. union_move
        (meet_from links (below links levels) (prim (below links levels))) t.at (kind t)) add_set_operand links
        (_e.now, []) tokens.entry) }
{
    let mut operands = SetChain::new(alloc);
    let mut rest = tokens;
    let mut left = links;
    while let Some((at, except, e, behind)) = next_union(alloc, &rest, links, levels, left)? {
        operands.push(at, except, e)?;
        rest = behind;
        left -= 1;
    }
    Ok((operands, rest))
}

/// Sets from their first operand.
#[cycle(queries)]
fn sets_of<'a>(
    alloc: Global,
    e: BoxedExpr,
    tokens: Lexemes<'a>,
    links: usize,
    levels: usize,
) -> Result<(BoxedExpr, Cursor<'a>), Stop<Lexemes<'a>>>
    ensures { Gives (λ x. x) result (sets_from links (below links levels) (done e) tokens.entry) }
{
    let (e, rest) = meet_of(alloc, e, tokens, links, levels)?;
    let (operands, rest) = unions_of(alloc, &e, rest, links, levels)?;
    let e = set_linked(alloc, e, operands)?;
    Ok((e, rest))
}

/// Sets.
#[cycle(queries)]
fn sets_at<'a>(
    alloc: Global,
    tokens: Lexemes<'a>,
    links: usize,
    levels: usize,
) -> Result<(BoxedExpr, Cursor<'a>), Stop<Lexemes<'a>>>
    ensures { Gives (λ x. x) result (sets links (below links levels) tokens.entry) }
{
    let first = first_of(tokens)?;
    let (e, rest) = prim_of(alloc, &first, links, levels)?;
    sets_of(alloc, e, rest, links, levels)
}

// ---- comparisons

/// The comparison that goes on sets: the place of its sign, the sign, the sets behind it, and what stands behind those.
#[cycle(queries)]
fn next_comparison<'a>(
    alloc: Global,
    tokens: &Cursor<'a>,
    links: usize,
    levels: usize,
) -> Result<Option<(usize, Sign, BoxedExpr, Cursor<'a>)>, Stop<Lexemes<'a>>>
    ensures { Gives some_comparison result (link_at
        (λ t. comparison_by (sets links (below links levels)) t.at (comparison_of (kind t))) (suc links) tokens.now) }
{
    let Some(first) = tokens.first() else {
        return Ok(None);
    };
    let Some(sign) = comparison_of(first.symbol()) else {
        return Ok(None);
    };
    let (e, rest) = sets_at(alloc, first.rest(), links, levels)?;
    Ok(Some((first.at(), sign, e, rest)))
}

/// Sets from their first operand, or two of them that are compared.
#[cycle(queries)]
fn cmp_of<'a>(
    alloc: Global,
    e: BoxedExpr,
    tokens: Lexemes<'a>,
    links: usize,
    levels: usize,
) -> Result<(BoxedExpr, Tail<'a>, Cursor<'a>), Stop<Lexemes<'a>>>
    ensures { Gives (λ x. ((x.0, tail_view x.1), x.2)) result
        (cmp_from links (below links levels) (done e) tokens.entry) }
{
    let (a, rest) = sets_of(alloc, e, tokens, links, levels)?;
    match next_comparison(alloc, &rest, links, levels)? {
        Some((at, sign, b, behind)) => {
            let e = boxed(alloc, at, Form::Compare(sign, a, b))?;
            Ok((e, Tail::Compared, behind))
        }
        None => Ok((a, Tail::Plain, rest)),
    }
}

// ---- quantifiers, not

/// Behind the variable of a quantifier.
#[cycle(queries)]
fn quantified_of<'a>(
    alloc: Global,
    by: Quantifier<'a>,
    tokens: Lexemes<'a>,
    links: usize,
    levels: usize,
    field: bool,
) -> Result<(BoxedExpr, Tail<'a>, Cursor<'a>), Stop<Lexemes<'a>>>
    ensures { Gives (λ x. ((x.0, tail_view x.1), x.2)) result
        (quantified (level links (below links levels)) field (quantifier_form by.entry) tokens.entry) }
{
    let rest = expect_word(QueryWord::In, tokens)?;
    let (range, rest) = sets_at(alloc, rest, links, levels)?;
    let rest = expect_sign(Mark::Colon, rest.tokens())?;
    let (body, tail, rest) = full_at(alloc, rest, links, levels, field)?;
    let e = quantifier_of(alloc, by, range, body)?;
    Ok((e, opened(tail), rest))
}

/// Behind `exists` at the place: a quantifier, or an expression in parentheses. The first is one level below.
#[cycle(queries)]
fn exists_of<'a>(
    alloc: Global,
    at: usize,
    tokens: Lexemes<'a>,
    links: usize,
    levels: usize,
    inner: usize,
    field: bool,
) -> Result<(BoxedExpr, Tail<'a>, Cursor<'a>), Stop<Lexemes<'a>>>
    requires { inner < levels }
    ensures { Gives (λ x. ((x.0, tail_view x.1), x.2)) result (eat
        (λ u. exists_move links field (below links levels) (level links (below links inner)) at (kind u))
        tokens.entry) }
{
    let first = first_of(tokens)?;
    match first.symbol() {
        Symbol::Name(name) => {
            let by = Quantifier::some(at, name);
            quantified_of(alloc, by, first.rest(), links, inner, field)
        }
        Symbol::Sign(Mark::Open) => {
            let (e, rest) = parts_at(alloc, Parts::SomeMember(at), first.rest(), links, inner)?;
            cmp_of(alloc, e, rest, links, levels)
        }
        _ => return stray(first.tokens()),
    }
}

/// Behind `for` at the place.
#[cycle(queries)]
fn for_all_of<'a>(
    alloc: Global,
    at: usize,
    tokens: Lexemes<'a>,
    links: usize,
    levels: usize,
    field: bool,
) -> Result<(BoxedExpr, Tail<'a>, Cursor<'a>), Stop<Lexemes<'a>>>
    ensures { Gives (λ x. ((x.0, tail_view x.1), x.2)) result (ahead (is_word words.All) (then variable
        (λ x. quantified (level links (below links levels)) field (QForAll at x.name))) tokens.entry) }
{
    let rest = expect_word(QueryWord::All, tokens)?;
    let (x, rest) = variable_of(rest)?;
    let by = Quantifier::every(at, x.name);
    quantified_of(alloc, by, rest, links, levels, field)
}

/// An operand of `and` from its first token.
#[cycle(queries)]
fn opennot_of<'a>(
    alloc: Global,
    first: &First<'a>,
    links: usize,
    levels: usize,
    field: bool,
) -> Result<(BoxedExpr, Tail<'a>, Cursor<'a>), Stop<Lexemes<'a>>>
    ensures { Gives (λ x. ((x.0, tail_view x.1), x.2)) result (eat_at
        (opennot_move links field (below links levels) (kind first.now.0) first.now.0.at) first.now.0 first.now.1) }
{
    match lead_of(first.symbol()) {
        Lead::Not => {
            let inner = inner_of(levels, first.tokens())?;
            let (e, tail, rest) = opennot_at(alloc, first.rest(), links, inner, field)?;
            let e = boxed(alloc, first.at(), Form::Not(e))?;
            Ok((e, tail, rest))
        }
        Lead::Exists => {
            let inner = inner_of(levels, first.tokens())?;
            exists_of(alloc, first.at(), first.rest(), links, levels, inner, field)
        }
        Lead::All => {
            let inner = inner_of(levels, first.tokens())?;
            for_all_of(alloc, first.at(), first.rest(), links, inner, field)
        }
        Lead::Other => {
            let (e, rest) = prim_of(alloc, first, links, levels)?;
            cmp_of(alloc, e, rest, links, levels)
        }
    }
}

/// An operand of `and`.
#[cycle(queries)]
fn opennot_at<'a>(
    alloc: Global,
    tokens: Lexemes<'a>,
    links: usize,
    levels: usize,
    field: bool,
) -> Result<(BoxedExpr, Tail<'a>, Cursor<'a>), Stop<Lexemes<'a>>>
    ensures { Gives (λ x. ((x.0, tail_view x.1), x.2)) result
        (opennot links field (below links levels) tokens.entry) }
{
    let first = first_of(tokens)?;
    opennot_of(alloc, &first, links, levels, field)
}

// ---- chains of truth values

/// The next operand of `and` behind an expression that ended so: the place of the word, the operand, how that ended, and what stands
/// behind it, where so many may come.
#[cycle(queries)]
fn next_and<'a>(
    alloc: Global,
    tail: Tail<'a>,
    tokens: &Cursor<'a>,
    links: usize,
    levels: usize,
    field: bool,
    left: usize,
) -> Result<Option<(usize, BoxedExpr, Tail<'a>, Cursor<'a>)>, Stop<Lexemes<'a>>>
    ensures link { Gives some_tailed result (link_at
        (λ t. and_move (opennot links field (below links levels)) (tail_view tail.entry) t.at (kind t)) left
        tokens.now) }
    ensures left { IfOk result (λ o. IsSome o → 0 < left) }
{
    let (Tail::Plain | Tail::Compared) = tail else {
        return Ok(None);
    };
    let Some(first) = tokens.first() else {
        return Ok(None);
    };
    let Symbol::Word(QueryWord::And) = first.symbol() else {
        return Ok(None);
    };
    if left == 0 {
        return Err(Stop::Before(Why::TooDeep, first.tokens()));
    }
    let (e, tail, rest) = opennot_at(alloc, first.rest(), links, levels, field)?;
    Ok(Some((first.at(), e, tail, rest)))
}

/// The operands of `and` behind the first one, `_e`, which ended so.
#[cycle(queries)]
fn ands_of<'a>(
    alloc: Global,
    _e: &BoxedExpr,
    end: Tail<'a>,
    tokens: Cursor<'a>,
    links: usize,
    levels: usize,
    field: bool,
) -> Result<(Chain, Tail<'a>, Cursor<'a>), Stop<Lexemes<'a>>>
    ensures { Gives (λ x. ((_e.now, x.0, tail_view x.1), x.2)) result (chain
        (λ (x : OperandsTailed) t. and_move (opennot links field (below links levels)) x.2 t.at (kind t)) more_operands
        links (_e.now, [], tail_view end.entry) tokens.entry) }
{
    let mut operands = Chain::new(alloc);
    let mut tail = end;
    let mut rest = tokens;
    let mut left = links;
    while let Some((at, e, ended, behind)) = next_and(
        alloc, tail, &rest, links, levels, field, left,
    )? {
        operands.push(at, e)?;
        tail = ended;
        rest = behind;
        left -= 1;
    }
    Ok((operands, tail, rest))
}

/// A chain of `and` from its first operand.
#[cycle(queries)]
fn and_of<'a>(
    alloc: Global,
    e: BoxedExpr,
    tail: Tail<'a>,
    tokens: Cursor<'a>,
    links: usize,
    levels: usize,
    field: bool,
) -> Result<(BoxedExpr, Tail<'a>, Cursor<'a>), Stop<Lexemes<'a>>>
    ensures { Gives (λ x. ((x.0, tail_view x.1), x.2)) result (and_from links
        (opennot links field (below links levels)) (done (e, tail_view tail.entry)) tokens.entry) }
{
    let (operands, tail, rest) = ands_of(alloc, &e, tail, tokens, links, levels, field)?;
    let e = linked(alloc, Joint::And, e, operands)?;
    Ok((e, tail, rest))
}

/// An operand of `or`.
#[cycle(queries)]
fn openand_at<'a>(
    alloc: Global,
    tokens: Lexemes<'a>,
    links: usize,
    levels: usize,
    field: bool,
) -> Result<(BoxedExpr, Tail<'a>, Cursor<'a>), Stop<Lexemes<'a>>>
    ensures { Gives (λ x. ((x.0, tail_view x.1), x.2)) result
        (openand links field (below links levels) tokens.entry) }
{
    let (e, tail, rest) = opennot_at(alloc, tokens, links, levels, field)?;
    and_of(alloc, e, tail, rest, links, levels, field)
}

/// The next operand of `or`, as `next_and` has those of `and`.
#[cycle(queries)]
fn next_or<'a>(
    alloc: Global,
    tail: Tail<'a>,
    tokens: &Cursor<'a>,
    links: usize,
    levels: usize,
    field: bool,
    left: usize,
) -> Result<Option<(usize, BoxedExpr, Tail<'a>, Cursor<'a>)>, Stop<Lexemes<'a>>>
    ensures link { Gives some_tailed result (link_at
        (λ t. or_move (openand links field (below links levels)) (tail_view tail.entry) t.at (kind t)) left
        tokens.now) }
    ensures left { IfOk result (λ o. IsSome o → 0 < left) }
{
    let (Tail::Plain | Tail::Compared) = tail else {
        return Ok(None);
    };
    let Some(first) = tokens.first() else {
        return Ok(None);
    };
    let Symbol::Word(QueryWord::Or) = first.symbol() else {
        return Ok(None);
    };
    if left == 0 {
        return Err(Stop::Before(Why::TooDeep, first.tokens()));
    }
    let (e, tail, rest) = openand_at(alloc, first.rest(), links, levels, field)?;
    Ok(Some((first.at(), e, tail, rest)))
}

/// The operands of `or` behind the first one, `_e`, which ended so.
#[cycle(queries)]
fn ors_of<'a>(
    alloc: Global,
    _e: &BoxedExpr,
    end: Tail<'a>,
    tokens: Cursor<'a>,
    links: usize,
    levels: usize,
    field: bool,
) -> Result<(Chain, Tail<'a>, Cursor<'a>), Stop<Lexemes<'a>>>
    ensures { Gives (λ x. ((_e.now, x.0, tail_view x.1), x.2)) result (chain
        (λ (x : OperandsTailed) t. or_move (openand links field (below links levels)) x.2 t.at (kind t)) more_operands
        links (_e.now, [], tail_view end.entry) tokens.entry) }
{
    let mut operands = Chain::new(alloc);
    let mut tail = end;
    let mut rest = tokens;
    let mut left = links;
    while let Some((at, e, ended, behind)) = next_or(
        alloc, tail, &rest, links, levels, field, left,
    )? {
        operands.push(at, e)?;
        tail = ended;
        rest = behind;
        left -= 1;
    }
    Ok((operands, tail, rest))
}

/// A chain of `or` from its first operand.
#[cycle(queries)]
fn or_of<'a>(
    alloc: Global,
    e: BoxedExpr,
    tail: Tail<'a>,
    tokens: Cursor<'a>,
    links: usize,
    levels: usize,
    field: bool,
) -> Result<(BoxedExpr, Tail<'a>, Cursor<'a>), Stop<Lexemes<'a>>>
    ensures { Gives (λ x. ((x.0, tail_view x.1), x.2)) result (or_from links
        (openand links field (below links levels)) (done (e, tail_view tail.entry)) tokens.entry) }
{
    let (operands, tail, rest) = ors_of(alloc, &e, tail, tokens, links, levels, field)?;
    let e = linked(alloc, Joint::Or, e, operands)?;
    Ok((e, tail, rest))
}

/// An expression, or a select.
#[cycle(queries)]
pub(crate) fn full_at<'a>(
    alloc: Global,
    tokens: Lexemes<'a>,
    links: usize,
    levels: usize,
    field: bool,
) -> Result<(BoxedExpr, Tail<'a>, Cursor<'a>), Stop<Lexemes<'a>>>
    ensures { Gives (λ x. ((x.0, tail_view x.1), x.2)) result
        (full links field (below links levels) tokens.entry) }
{
    let first = first_of(tokens)?;
    if is_select(first.symbol()) {
        let inner = inner_of(levels, first.tokens())?;
        return select_of(alloc, first.at(), first.rest(), links, inner, field);
    }
    let (e, tail, rest) = opennot_of(alloc, &first, links, levels, field)?;
    let (e, tail, rest) = and_of(alloc, e, tail, rest, links, levels, field)?;
    or_of(alloc, e, tail, rest, links, levels, field)
}

// ---- selects

/// The condition behind ranges that ended so: the place of `where`, the condition, how it ended, and what stands behind it.
#[cycle(queries)]
fn where_of<'a>(
    alloc: Global,
    tail: Tail<'a>,
    tokens: &Cursor<'a>,
    links: usize,
    levels: usize,
    field: bool,
) -> Result<Option<(usize, BoxedExpr, Tail<'a>, Cursor<'a>)>, Stop<Lexemes<'a>>>
    ensures { Gives some_tailed result (link_at
        (λ t. where_move (full links field (below links levels)) NoWhere (tail_view tail.entry) t.at (kind t))
        (suc links) tokens.now) }
{
    let Tail::Ranged(_) = tail else {
        return Ok(None);
    };
    let Some(first) = tokens.first() else {
        return Ok(None);
    };
    let Symbol::Word(QueryWord::Where) = first.symbol() else {
        return Ok(None);
    };
    let (e, tail, rest) = full_at(alloc, first.rest(), links, levels, field)?;
    Ok(Some((first.at(), e, tail, rest)))
}

/// A select at the place, behind `from`.
#[cycle(queries)]
fn select_rest_of<'a>(
    alloc: Global,
    at: usize,
    head: BoxedExpr,
    tokens: Lexemes<'a>,
    links: usize,
    levels: usize,
    field: bool,
) -> Result<(BoxedExpr, Tail<'a>, Cursor<'a>), Stop<Lexemes<'a>>>
    ensures { Gives (λ x. ((x.0, tail_view x.1), x.2)) result
        (select_rest links (level links (below links levels)) field at head tokens.entry) }
{
    let (ranges, tail, rest) = ranges_of(alloc, tokens, links, levels, field)?;
    match where_of(alloc, tail, &rest, links, levels, field)? {
        Some((place, condition, ended, behind)) => {
            let e = boxed(
                alloc,
                at,
                Form::Select(head, ranges, Some((place, condition))),
            )?;
            Ok((e, opened(ended), behind))
        }
        None => {
            let e = boxed(alloc, at, Form::Select(head, ranges, None))?;
            Ok((e, tail, rest))
        }
    }
}

/// A select at the place, behind its first word.
#[cycle(queries)]
fn select_of<'a>(
    alloc: Global,
    at: usize,
    tokens: Lexemes<'a>,
    links: usize,
    levels: usize,
    field: bool,
) -> Result<(BoxedExpr, Tail<'a>, Cursor<'a>), Stop<Lexemes<'a>>>
    ensures { Gives (λ x. ((x.0, tail_view x.1), x.2)) result
        (select links (level links (below links levels)) field at tokens.entry) }
{
    let rest = expect_word(QueryWord::Distinct, tokens)?;
    let (head, _, rest) = full_at(alloc, rest, links, levels, false)?;
    let rest = expect_word(QueryWord::From, rest.tokens())?;
    select_rest_of(alloc, at, head, rest, links, levels, field)
}

// ---- ranges

/// A range with `as` from its first operand.
#[cycle(queries)]
fn as_of<'a>(
    alloc: Global,
    e: BoxedExpr,
    tokens: Lexemes<'a>,
    links: usize,
    levels: usize,
) -> Result<(Range<'a>, Cursor<'a>), Stop<Lexemes<'a>>>
    ensures { Gives (λ x. (range_view x.0, x.1)) result (as_from links (below links levels) (done e) tokens.entry) }
{
    let (e, rest) = sets_of(alloc, e, tokens, links, levels)?;
    let rest = expect_word(QueryWord::As, rest.tokens())?;
    let (x, rest) = variable_of(rest)?;
    let range = Range {
        x,
        e,
        with_as: true,
    };
    Ok((range, Cursor::of(rest)))
}

/// A range behind its first word, a name.
#[cycle(queries)]
fn named_range_of<'a>(
    alloc: Global,
    x: Named<'a>,
    tokens: Cursor<'a>,
    links: usize,
    levels: usize,
) -> Result<(Range<'a>, Cursor<'a>), Stop<Lexemes<'a>>>
    ensures { Gives (λ x. (range_view x.0, x.1)) result (other
        (λ u. in_move links (below links levels) (named_view x.entry) (kind u))
        (as_from links (below links levels) (done (QName x.entry.at x.entry.name.now))) tokens.entry) }
{
    if let Some(rest) = behind_in(&tokens) {
        let (e, rest) = sets_at(alloc, rest, links, levels)?;
        let range = Range {
            x,
            e,
            with_as: false,
        };
        return Ok((range, rest));
    }
    let e = name_at(alloc, x)?;
    as_of(alloc, e, tokens.tokens(), links, levels)
}

/// A range from its first token.
#[cycle(queries)]
fn range_of<'a>(
    alloc: Global,
    first: &First<'a>,
    links: usize,
    levels: usize,
) -> Result<(Range<'a>, Cursor<'a>), Stop<Lexemes<'a>>>
    ensures { Gives (λ x. (range_view x.0, x.1)) result (eat_at
        (range_move links (below links levels) (kind first.now.0) first.now.0.at) first.now.0 first.now.1) }
{
    if let Some(name) = name_in(first.symbol()) {
        let at = first.at();
        return named_range_of(
            alloc,
            Named { name, at },
            Cursor::of(first.rest()),
            links,
            levels,
        );
    }
    let (e, rest) = prim_of(alloc, first, links, levels)?;
    as_of(alloc, e, rest, links, levels)
}

// ---- behind a comma in a field of a struct

/// A range with `as` from its first operand, behind a comma.
#[cycle(queries)]
fn next_range_of<'a>(
    alloc: Global,
    e: BoxedExpr,
    tokens: Lexemes<'a>,
    links: usize,
    levels: usize,
) -> Result<(Next<'a>, Cursor<'a>), Stop<Lexemes<'a>>>
    ensures { Gives (λ x. (next_view x.0, x.1)) result
        (range_from links (below links levels) (done e) tokens.entry) }
{
    let (range, rest) = as_of(alloc, e, tokens, links, levels)?;
    Ok((Next::Range(range), rest))
}

/// A range that begins with `set`, behind that word.
#[cycle(queries)]
fn next_set_of<'a>(
    alloc: Global,
    at: usize,
    tokens: Lexemes<'a>,
    links: usize,
    levels: usize,
) -> Result<(Next<'a>, Cursor<'a>), Stop<Lexemes<'a>>>
    ensures { Gives (λ x. (next_view x.0, x.1)) result
        (eat (λ u. set_paren links (below links levels) at (kind u)) tokens.entry) }
{
    let first = first_of(tokens)?;
    let Symbol::Sign(Mark::Open) = first.symbol() else {
        return stray(first.tokens());
    };
    let (e, rest) = set_of(alloc, at, first.rest())?;
    next_range_of(alloc, e, rest, links, levels)
}

/// A range that begins with parts in parentheses, behind their word.
#[cycle(queries)]
fn next_parts_of<'a>(
    alloc: Global,
    parts: Parts,
    tokens: Lexemes<'a>,
    links: usize,
    levels: usize,
) -> Result<(Next<'a>, Cursor<'a>), Stop<Lexemes<'a>>>
    ensures { Gives (λ x. (next_view x.0, x.1)) result
        (eat (λ u. parts_paren links (below links levels) parts (kind u)) tokens.entry) }
{
    let first = first_of(tokens)?;
    let Symbol::Sign(Mark::Open) = first.symbol() else {
        return stray(first.tokens());
    };
    let inner = inner_of(levels, first.tokens())?;
    let (e, rest) = parts_at(alloc, parts, first.rest(), links, inner)?;
    next_range_of(alloc, e, rest, links, levels)
}

/// A range that begins with a word of the form, the label `l`, behind it.
#[cycle(queries)]
fn word_range_of<'a>(
    alloc: Global,
    l: Named<'a>,
    form: WordForm,
    tokens: Cursor<'a>,
    links: usize,
    levels: usize,
) -> Result<(Next<'a>, Cursor<'a>), Stop<Lexemes<'a>>>
    ensures { Gives (λ x. (next_view x.0, x.1)) result
        (word_range links (below links levels) (named_view l.entry) form tokens.entry) }
{
    if let WordForm::Name = form {
        let (range, rest) = named_range_of(alloc, l, tokens, links, levels)?;
        return Ok((Next::Range(range), rest));
    }
    match form {
        WordForm::Truth(b) => {
            let e = boxed(alloc, l.at, Form::Literal(Lit::Bool(b)))?;
            next_range_of(alloc, e, tokens.tokens(), links, levels)
        }
        WordForm::Set => next_set_of(alloc, l.at, tokens.tokens(), links, levels),
        WordForm::Struct => {
            next_parts_of(alloc, Parts::Struct(l.at), tokens.tokens(), links, levels)
        }
        WordForm::Flatten => {
            next_parts_of(alloc, Parts::Flatten(l.at), tokens.tokens(), links, levels)
        }
        WordForm::SomeMember => {
            next_parts_of(
                alloc,
                Parts::SomeMember(l.at),
                tokens.tokens(),
                links,
                levels,
            )
        }
        WordForm::Name | WordForm::Other => return stray(tokens.tokens()),
    }
}

/// What stands behind a comma in a field of a struct, from its first token.
#[cycle(queries)]
fn next_of<'a>(
    alloc: Global,
    first: &First<'a>,
    links: usize,
    levels: usize,
) -> Result<(Next<'a>, Cursor<'a>), Stop<Lexemes<'a>>>
    ensures { Gives (λ x. (next_view x.0, x.1)) result (eat_at
        (next_move links (below links levels) (name_of first.now.0) (kind first.now.0) first.now.0.at) first.now.0
        first.now.1) }
{
    let Some(l) = first.word() else {
        let (e, rest) = prim_of(alloc, first, links, levels)?;
        return next_range_of(alloc, e, rest, links, levels);
    };
    let rest = Cursor::of(first.rest());
    if let Some(behind) = behind_colon(&rest) {
        return Ok((Next::Label(l), Cursor::of(behind)));
    }
    word_range_of(alloc, l, word_form(first.symbol()), rest, links, levels)
}

// ---- all ranges

/// Another range, or in a field of a struct what stands behind a comma there.
#[cycle(queries)]
fn next_at<'a>(
    alloc: Global,
    tokens: Lexemes<'a>,
    links: usize,
    levels: usize,
    field: bool,
) -> Result<(Next<'a>, Cursor<'a>), Stop<Lexemes<'a>>>
    ensures { Gives (λ x. (next_view x.0, x.1)) result (next links (below links levels) field tokens.entry) }
{
    let first = first_of(tokens)?;
    if field {
        return next_of(alloc, &first, links, levels);
    }
    let (range, rest) = range_of(alloc, &first, links, levels)?;
    Ok((Next::Range(range), rest))
}

/// What stands behind a comma behind ranges that ended so, where so many may come.
#[cycle(queries)]
fn next_range<'a>(
    alloc: Global,
    tail: Tail<'a>,
    tokens: &Cursor<'a>,
    links: usize,
    levels: usize,
    field: bool,
    left: usize,
) -> Result<Option<(Next<'a>, Cursor<'a>)>, Stop<Lexemes<'a>>>
    ensures link { Gives some_next result (link_at
        (λ t. comma_move (next links (below links levels) field) (tail_view tail.entry) (kind t)) left tokens.now) }
    ensures left { IfOk result (λ o. IsSome o → 0 < left) }
{
    let Tail::Ranged(_) = tail else {
        return Ok(None);
    };
    let Some(first) = tokens.first() else {
        return Ok(None);
    };
    let Symbol::Sign(Mark::Comma) = first.symbol() else {
        return Ok(None);
    };
    if left == 0 {
        return Err(Stop::Before(Why::TooDeep, first.tokens()));
    }
    let (next, rest) = next_at(alloc, first.rest(), links, levels, field)?;
    Ok(Some((next, rest)))
}

/// The ranges from the first one on. There are at most as many others as tokens.
#[cycle(queries)]
fn more_ranges_of<'a>(
    alloc: Global,
    first: Range<'a>,
    tokens: Cursor<'a>,
    links: usize,
    levels: usize,
    field: bool,
) -> Result<(Ranges, Tail<'a>, Cursor<'a>), Stop<Lexemes<'a>>>
    ensures { Gives (λ x. ((x.0, tail_view x.1), x.2)) result (many
        (λ (x : RangesTailed) t. comma_move (next links (below links levels) field) x.1 (kind t)) more_ranges
        (first_range (range_view first.entry)) tokens.entry) }
{
    let mut ranges = NamedExprs::new(alloc);
    let mut tail = take_next(alloc, &mut ranges, Next::Range(first))?;
    let mut left = tokens.tokens().len();
    let mut rest = tokens;
    while let Some((next, behind)) = next_range(alloc, tail, &rest, links, levels, field, left)? {
        tail = take_next(alloc, &mut ranges, next)?;
        rest = behind;
        left -= 1;
    }
    Ok((ranges, tail, rest))
}

/// All ranges of a select.
#[cycle(queries)]
fn ranges_of<'a>(
    alloc: Global,
    tokens: Lexemes<'a>,
    links: usize,
    levels: usize,
    field: bool,
) -> Result<(Ranges, Tail<'a>, Cursor<'a>), Stop<Lexemes<'a>>>
    ensures { Gives (λ x. ((x.0, tail_view x.1), x.2)) result
        (ranges links (below links levels) field tokens.entry) }
{
    let first = first_of(tokens)?;
    let (range, rest) = range_of(alloc, &first, links, levels)?;
    more_ranges_of(alloc, range, rest, links, levels, field)
}

// ---- the fields of a struct

/// The fields behind a label and its colon, up to the parenthesis. There are at most as many as tokens.
#[cycle(queries)]
fn more_fields_of<'a>(
    alloc: Global,
    first: Named<'a>,
    tokens: Lexemes<'a>,
    links: usize,
    levels: usize,
) -> Result<(StructList, Lexemes<'a>), Stop<Lexemes<'a>>>
    ensures { Gives (λ x. x) result (rounds (field (full links true (below links levels)))
        (first_field (named_view first.entry)) tokens.entry) }
{
    let mut fields = NamedExprs::new(alloc);
    let mut label = first;
    let mut left = tokens.len();
    let mut rest = tokens;
    loop {
        let (e, tail, behind) = full_at(alloc, rest, links, levels, true)?;
        fields.push(Name::from_text(alloc, label.name)?, label.at, e)?;
        let (next, behind) = field_end_of(tail, behind.tokens())?;
        rest = behind;
        let Some(named) = next else {
            return Ok((fields, rest));
        };
        if left == 0 {
            return stray(rest);
        }
        label = named;
        left -= 1;
    }
}

/// The fields of a struct, up to the parenthesis.
#[cycle(queries)]
fn fields_of<'a>(
    alloc: Global,
    tokens: Lexemes<'a>,
    links: usize,
    levels: usize,
) -> Result<(StructList, Lexemes<'a>), Stop<Lexemes<'a>>>
    ensures { Gives (λ x. x) result (fields (full links true (below links levels)) tokens.entry) }
{
    let (first, rest) = name_of(tokens)?;
    let rest = expect_sign(Mark::Colon, rest)?;
    more_fields_of(alloc, first, rest, links, levels)
}

// ---- whole queries

/// The semicolon or none, and the end of the text, behind the expression `_e`.
fn end_of<'a>(_e: &BoxedExpr, tokens: &Cursor<'a>) -> Result<(), Stop<Lexemes<'a>>>
    ensures { Gives (λ _. (_e.now, [])) result (ending _e.now tokens.now) }
{
    let Some(first) = tokens.first() else {
        return Ok(());
    };
    let Symbol::Sign(Mark::Semicolon) = first.symbol() else {
        return stray(first.tokens());
    };
    let rest = first.rest();
    match rest.split() {
        None => Ok(()),
        Some(_) => stray(rest),
    }
}

/// A whole query, with chains of so many links and so many levels below it. It stops where no query goes on, or none within these.
pub(crate) fn query_of<'a>(
    alloc: Global,
    tokens: Lexemes<'a>,
    links: usize,
    levels: usize,
) -> Result<BoxedExpr, Stop<Lexemes<'a>>>
    ensures { Gives (λ e. (e, [])) result (query links levels tokens.entry) }
{
    let (e, _, rest) = full_at(alloc, tokens, links, levels, false)?;
    end_of(&e, &rest)?;
    Ok(e)
}

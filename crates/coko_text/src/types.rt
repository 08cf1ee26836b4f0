//! Types of rules from tokens.

ghost use Rattle.std.specs.Prelude.{◌≡◌, IfOk};
ghost use Rattle.std.specs.Option.{option_map};
ghost use Rattle.kola_base.specs.AlphabetViews.{symbol_view};
ghost use Rattle.kola_parse.specs.Given.{Gives};
ghost use Rattle.kola_values.specs.Types.{TSet, TPair};
ghost use Rattle.kola_values.specs.Views.{type_tree};
ghost use Rattle.coko_text.specs.RuleGrammar.{is_capital};
ghost use Rattle.coko_text.specs.RuleReaders.{named_type, leaf_of, two_types, type_at, type_step};
ghost use Rattle.coko_text.specs.RuleViews.{boxed_type, boxed_types};
ghost use Rattle.kola_parse.specs.Levels.{below};

use kola_base::{Lexemes, Sign, Symbol, TermWord as Word, expect_sign, next_of, symbol_of};
use kola_core::{Memory, Name};
use kola_parse::{Stop, inner_of, stray};
use kola_values::{BoxedTy, Ty};
use std::alloc::Global;

/// Whether the first letter of a name is a capital one.
fn is_capital(name: &str) -> bool
    ensures { result ≡ is_capital name.now }
{
    matches!(name.as_bytes(), [b'A'..=b'Z', ..])
}

/// The type of a name: a class where it begins with a capital letter, and else a type variable.
fn named_type(alloc: Global, name: &str) -> Result<Box<Ty>, Memory>
    ensures { IfOk result (λ t. boxed_type t ≡ named_type name.now) }
{
    let copied = Name::from_text(alloc, name)?;
    if is_capital(name) {
        Ok(Box::new(alloc, Ty::Class(copied))?)
    } else {
        Ok(Box::new(alloc, Ty::Var(copied))?)
    }
}

/// The type that a token is alone, if it is one.
fn leaf_of(alloc: Global, kind: Symbol<'_, Word>) -> Result<Option<Box<Ty>>, Memory>
    ensures { IfOk result (λ o. option_map boxed_type o ≡ leaf_of (symbol_view kind.entry)) }
{
    match kind {
        Symbol::Word(Word::Int) => Ok(Some(Box::new(alloc, Ty::Int)?)),
        Symbol::Word(Word::String) => Ok(Some(Box::new(alloc, Ty::Str)?)),
        Symbol::Word(Word::Bool) => Ok(Some(Box::new(alloc, Ty::Bool)?)),
        Symbol::Word(Word::Unit) => Ok(Some(Box::new(alloc, Ty::Unit)?)),
        Symbol::Name(name) => Ok(Some(named_type(alloc, name)?)),
        _ => Ok(None),
    }
}

/// The sets of values of a type.
fn set_type(alloc: Global, member: Box<Ty>) -> Result<Box<Ty>, Memory>
    ensures { IfOk result (λ t. boxed_type t ≡ TSet (boxed_type member)) }
{
    let member = BoxedTy::new(alloc, Box::into_inner(member))?;
    Ok(Box::new(alloc, Ty::Set(member))?)
}

/// The pairs of values of two types.
fn pair_type(alloc: Global, parts: (Box<Ty>, Box<Ty>)) -> Result<Box<Ty>, Memory>
    ensures { IfOk result (λ t. boxed_type t ≡ TPair (boxed_type parts.0) (boxed_type parts.1)) }
{
    let (first, second) = parts;
    let first = BoxedTy::new(alloc, Box::into_inner(first))?;
    let second = BoxedTy::new(alloc, Box::into_inner(second))?;
    Ok(Box::new(alloc, Ty::Pair(first, second))?)
}

/// A type, and what is left behind it, with room for so many constructors round a name. It stops where no type goes on,
/// or none within them.
#[cycle(types)]
pub(crate) fn type_of<'a>(
    alloc: Global,
    tokens: Lexemes<'a>,
    levels: usize,
) -> Result<(Box<Ty>, Lexemes<'a>), Stop<Lexemes<'a>>>
    ensures { Gives (λ x. (boxed_type x.0, x.1)) result (type_at levels tokens.entry) }
{
    let (first, rest) = next_of(&tokens)?;
    match symbol_of::<Word>(first.says) {
        Symbol::Word(Word::Set) => {
            let inner = inner_of(levels, tokens)?;
            let (member, rest) = type_of(alloc, rest, inner)?;
            Ok((set_type(alloc, member)?, rest))
        }
        Symbol::Sign(Sign::Open) => {
            let inner = inner_of(levels, tokens)?;
            let (parts, rest) = two_types_of(alloc, rest, inner)?;
            Ok((pair_type(alloc, parts)?, rest))
        }
        kind => match leaf_of(alloc, kind)? {
            Some(leaf) => Ok((leaf, rest)),
            None => return stray(tokens),
        },
    }
}

/// The two types of a pair behind its parenthesis, up to the other one.
#[cycle(types)]
fn two_types_of<'a>(
    alloc: Global,
    tokens: Lexemes<'a>,
    levels: usize,
) -> Result<((Box<Ty>, Box<Ty>), Lexemes<'a>), Stop<Lexemes<'a>>>
    ensures { Gives (λ x. (boxed_types x.0, x.1)) result (two_types (type_at levels) tokens.entry) }
{
    let (first, rest) = type_of(alloc, tokens, levels)?;
    let rest = expect_sign(Sign::Comma, rest)?;
    let (second, rest) = type_of(alloc, rest, levels)?;
    let rest = expect_sign(Sign::Close, rest)?;
    Ok(((first, second), rest))
}

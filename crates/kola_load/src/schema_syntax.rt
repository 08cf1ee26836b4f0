//! Reads a schema off the lexemes of its text, by the kind of the first one.

ghost use Rattle.std.specs.Prelude.{◌≡◌, map};
ghost use Rattle.std.specs.Option.{option_map};
ghost use Rattle.kola_base.specs.Alphabets.{symbol_by};
ghost use Rattle.kola_base.specs.AlphabetViews.{symbol_view};
ghost use Rattle.kola_base.specs.LexemeViews.{lexeme_view};
ghost use Rattle.kola_load.specs.SchemaAlphabet.{word_named};
ghost use Rattle.kola_parse.specs.Given.{Gives};
ghost use Rattle.kola_parse.specs.Reader.{whole};
ghost use Rattle.kola_load.specs.SchemaGrammar.{leaf_of};
ghost use Rattle.kola_load.specs.SchemaReaders.{type_at, next_name, names_at, key_at, next_key, keys_at, attribute_at, next_attribute, attributes_at, body_at, is_semicolon, end_at, next_class, schema_at};
ghost use Rattle.kola_load.specs.SchemaViews.{named_view, type_view, key_view, attribute_view, class_view};

use crate::schema_alphabet::Word;
use crate::schema_tree::{AttributeAt, ClassAt, TypeAt};
use kola_base::{
    Lexeme, Lexemes, Named, Sign, Symbol, expect_sign, expect_word, name_of, next_of, symbol_of,
};
use kola_parse::{Stop, inner_of, stray};
use std::alloc::Global;

/// A type that is one word, which is the name of a class where it is none of those of types.
fn leaf_of<'a>(word: Symbol<'_, Word>, name: Option<Named<'a>>) -> Option<TypeAt<'a>>
    ensures { option_map type_view result ≡ leaf_of (symbol_view word.entry) (option_map named_view name.entry) }
{
    match word {
        Symbol::Word(Word::Int | Word::Long) => Some(TypeAt::Int),
        Symbol::Word(Word::String) => Some(TypeAt::Str),
        Symbol::Word(Word::Bool | Word::Boolean) => Some(TypeAt::Bool),
        Symbol::Word(Word::Set) => None,
        _ => Some(TypeAt::Class(name?)),
    }
}

fn type_of<'a>(
    alloc: Global,
    tokens: Lexemes<'a>,
    levels: usize,
) -> Result<(TypeAt<'a>, Lexemes<'a>), Stop<Lexemes<'a>>>
    ensures { Gives (λ x. (type_view x.0, x.1)) result (type_at levels tokens.entry) }
{
    let (first, rest) = next_of(&tokens)?;
    let name = first.name();
    let symbol = symbol_of::<Word>(first.says);
    if let Symbol::Word(Word::Set) = symbol {
        let inner = inner_of(levels, tokens)?;
        let rest = expect_sign(Sign::Less, rest)?;
        let (member, rest) = type_of(alloc, rest, inner)?;
        let rest = expect_sign(Sign::Greater, rest)?;
        return Ok((TypeAt::Set(Box::new(alloc, member)?), rest));
    }
    let Some(leaf) = leaf_of(symbol, name) else {
        return stray(tokens);
    };
    Ok((leaf, rest))
}

/// One more name, or `None` where the parenthesis closes.
fn next_name<'a>(tokens: Lexemes<'a>) -> Result<(Option<Named<'a>>, Lexemes<'a>), Stop<Lexemes<'a>>>
    ensures { Gives (λ x. (option_map named_view x.0, x.1)) result (next_name tokens.entry) }
{
    let (first, rest) = next_of(&tokens)?;
    match symbol_of::<Word>(first.says) {
        Symbol::Sign(Sign::Comma) => {
            let (name, rest) = name_of(rest)?;
            Ok((Some(name), rest))
        }
        Symbol::Sign(Sign::Close) => Ok((None, rest)),
        _ => return stray(tokens),
    }
}

/// The names up to the parenthesis, which is behind them.
fn names_of<'a>(
    alloc: Global,
    tokens: Lexemes<'a>,
) -> Result<(Vec<Named<'a>>, Lexemes<'a>), Stop<Lexemes<'a>>>
    ensures { Gives (λ x. (key_view x.0, x.1)) result (names_at tokens.entry) }
{
    let (first, mut rest) = name_of(tokens)?;
    let mut names = Vec::new(alloc);
    names.push(first)?;
    loop {
        let (next, behind) = next_name(rest)?;
        rest = behind;
        match next {
            Some(name) => names.push(name)?,
            None => return Ok((names, rest)),
        }
    }
}

/// A name, or names in parentheses.
fn key_of<'a>(
    alloc: Global,
    tokens: Lexemes<'a>,
) -> Result<(Vec<Named<'a>>, Lexemes<'a>), Stop<Lexemes<'a>>>
    ensures { Gives (λ x. (key_view x.0, x.1)) result (key_at tokens.entry) }
{
    let (first, rest) = next_of(&tokens)?;
    if let Some(name) = first.name() {
        let mut names = Vec::new(alloc);
        names.push(name)?;
        return Ok((names, rest));
    }
    match symbol_of::<Word>(first.says) {
        Symbol::Sign(Sign::Open) => names_of(alloc, rest),
        _ => return stray(tokens),
    }
}

/// One more key, or `None` where the parenthesis closes.
fn next_key<'a>(
    alloc: Global,
    tokens: Lexemes<'a>,
) -> Result<(Option<Vec<Named<'a>>>, Lexemes<'a>), Stop<Lexemes<'a>>>
    ensures { Gives (λ x. (option_map key_view x.0, x.1)) result (next_key tokens.entry) }
{
    let (first, rest) = next_of(&tokens)?;
    match symbol_of::<Word>(first.says) {
        Symbol::Sign(Sign::Comma) => {
            let rest = expect_word(Word::Key.spelling(), rest)?;
            let (key, rest) = key_of(alloc, rest)?;
            Ok((Some(key), rest))
        }
        Symbol::Word(Word::Key) => {
            let (key, rest) = key_of(alloc, rest)?;
            Ok((Some(key), rest))
        }
        Symbol::Sign(Sign::Close) => Ok((None, rest)),
        _ => return stray(tokens),
    }
}

/// The keys up to the parenthesis, which is behind them.
fn keys_of<'a>(
    alloc: Global,
    tokens: Lexemes<'a>,
) -> Result<(Vec<Vec<Named<'a>>>, Lexemes<'a>), Stop<Lexemes<'a>>>
    ensures { Gives (λ x. (map key_view x.0.items, x.1)) result (keys_at tokens.entry) }
{
    let mut keys = Vec::new(alloc);
    let mut rest = tokens;
    loop {
        let (next, behind) = next_key(alloc, rest)?;
        rest = behind;
        match next {
            Some(key) => keys.push(key)?,
            None => return Ok((keys, rest)),
        }
    }
}

/// The attribute behind its word, up to the semicolon.
fn attribute_of<'a>(
    alloc: Global,
    tokens: Lexemes<'a>,
    levels: usize,
) -> Result<(AttributeAt<'a>, Lexemes<'a>), Stop<Lexemes<'a>>>
    ensures { Gives (λ x. (attribute_view x.0, x.1)) result (attribute_at (type_at levels) tokens.entry) }
{
    let (ty, rest) = type_of(alloc, tokens, levels)?;
    let (name, rest) = name_of(rest)?;
    let rest = expect_sign(Sign::Semicolon, rest)?;
    Ok((AttributeAt { ty, name }, rest))
}

/// One more attribute, or `None` where the brace closes.
fn next_attribute<'a>(
    alloc: Global,
    tokens: Lexemes<'a>,
    levels: usize,
) -> Result<(Option<AttributeAt<'a>>, Lexemes<'a>), Stop<Lexemes<'a>>>
    ensures { Gives (λ x. (option_map attribute_view x.0, x.1)) result (next_attribute (type_at levels) tokens.entry) }
{
    let (first, rest) = next_of(&tokens)?;
    match symbol_of::<Word>(first.says) {
        Symbol::Word(Word::Attribute) => {
            let (attribute, rest) = attribute_of(alloc, rest, levels)?;
            Ok((Some(attribute), rest))
        }
        Symbol::Sign(Sign::RightBrace) => Ok((None, rest)),
        _ => return stray(tokens),
    }
}

/// The attributes up to the brace, which is behind them.
fn attributes_of<'a>(
    alloc: Global,
    tokens: Lexemes<'a>,
    levels: usize,
) -> Result<(Vec<AttributeAt<'a>>, Lexemes<'a>), Stop<Lexemes<'a>>>
    ensures { Gives (λ x. (map attribute_view x.0.items, x.1)) result (attributes_at (type_at levels) tokens.entry) }
{
    let mut attributes = Vec::new(alloc);
    let mut rest = tokens;
    loop {
        let (next, behind) = next_attribute(alloc, rest, levels)?;
        rest = behind;
        match next {
            Some(attribute) => attributes.push(attribute)?,
            None => return Ok((attributes, rest)),
        }
    }
}

/// The class behind its word, up to the brace.
fn body_of<'a>(
    alloc: Global,
    tokens: Lexemes<'a>,
    levels: usize,
) -> Result<(ClassAt<'a>, Lexemes<'a>), Stop<Lexemes<'a>>>
    ensures { Gives (λ x. (class_view x.0, x.1)) result (body_at (type_at levels) tokens.entry) }
{
    let (name, rest) = name_of(tokens)?;
    let rest = expect_sign(Sign::Open, rest)?;
    let rest = expect_word(Word::Extent.spelling(), rest)?;
    let (extent, rest) = name_of(rest)?;
    let (keys, rest) = keys_of(alloc, rest)?;
    let rest = expect_sign(Sign::LeftBrace, rest)?;
    let (attributes, rest) = attributes_of(alloc, rest, levels)?;
    Ok((
        ClassAt {
            name,
            extent,
            keys,
            attributes,
        },
        rest,
    ))
}

fn is_semicolon(says: Lexeme<'_>) -> bool
    ensures { result ≡ is_semicolon (symbol_by word_named (lexeme_view says.entry)) }
{
    matches!(symbol_of::<Word>(says), Symbol::Sign(Sign::Semicolon))
}

/// The class, and what stands behind the semicolon that may end it. A second semicolon is refused.
fn ended<'a>(
    class: ClassAt<'a>,
    tokens: Lexemes<'a>,
) -> Result<(ClassAt<'a>, Lexemes<'a>), Stop<Lexemes<'a>>>
    ensures { Gives (λ x. (class_view x.0, x.1)) result (end_at (class_view class.entry) tokens.entry) }
{
    let Some((first, rest)) = tokens.split() else {
        return Ok((class, tokens));
    };
    if !is_semicolon(first.says) {
        return Ok((class, tokens));
    }
    match rest.split() {
        Some((second, _)) => {
            if is_semicolon(second.says) {
                stray(rest)
            } else {
                Ok((class, rest))
            }
        }
        None => Ok((class, rest)),
    }
}

/// One more class, or `None` before what begins none.
fn next_class<'a>(
    alloc: Global,
    tokens: Lexemes<'a>,
    levels: usize,
) -> Result<(Option<ClassAt<'a>>, Lexemes<'a>), Stop<Lexemes<'a>>>
    ensures { Gives (λ x. (option_map class_view x.0, x.1)) result (next_class (type_at levels) tokens.entry) }
{
    let Some((first, rest)) = tokens.split() else {
        return Ok((None, tokens));
    };
    match symbol_of::<Word>(first.says) {
        Symbol::Word(Word::Class) => {
            let (class, rest) = body_of(alloc, rest, levels)?;
            let (class, rest) = ended(class, rest)?;
            Ok((Some(class), rest))
        }
        _ => Ok((None, tokens)),
    }
}

/// The classes, up to what begins none.
fn classes_of<'a>(
    alloc: Global,
    tokens: Lexemes<'a>,
    levels: usize,
) -> Result<(Vec<ClassAt<'a>>, Lexemes<'a>), Stop<Lexemes<'a>>>
    ensures { Gives (λ x. (map class_view x.0.items, x.1)) result (schema_at levels tokens.entry) }
{
    let mut classes = Vec::new(alloc);
    let mut rest = tokens;
    loop {
        let (next, behind) = next_class(alloc, rest, levels)?;
        rest = behind;
        match next {
            Some(class) => classes.push(class)?,
            None => return Ok((classes, rest)),
        }
    }
}

/// The schema that the lexemes spell, where types nest at most so many sets, or where they are at fault first.
pub fn schema_of<'a>(
    alloc: Global,
    tokens: Lexemes<'a>,
    levels: usize,
) -> Result<Vec<ClassAt<'a>>, Stop<Lexemes<'a>>>
    ensures { Gives (λ x. map class_view x.items) result (whole (schema_at levels) tokens.entry) }
{
    let (classes, rest) = classes_of(alloc, tokens, levels)?;
    match rest.split() {
        None => Ok(classes),
        Some(_) => stray(rest),
    }
}

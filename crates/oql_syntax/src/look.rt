//! The tokens of a query, each looked at once.

ghost use Rattle.std.specs.Prelude.{◌≡◌, [], ◌∷◌, IfSome, IfNone, IfOk, IfErr};
ghost use Rattle.kola_parse.specs.declared.stop.Stop.TheVariants.{Before};
ghost use Rattle.kola_parse.specs.declared.why.Why.TheVariants.{Unexpected};
ghost use Rattle.kola_parse.specs.Kinds.{expect};
ghost use Rattle.kola_parse.specs.Given.{Gives};
ghost use Rattle.std.specs.Option.{option_map};
ghost use Rattle.kola_base.specs.Named.{name_of};
ghost use Rattle.kola_base.specs.NamedViews.{named_view};
ghost use Rattle.kola_base.specs.AlphabetViews.{symbol_view};
ghost use Rattle.oql_syntax.specs.Alphabet.{kind};
ghost use Rattle.oql_syntax.specs.QueryReaders.{is_word};
ghost use Rattle.oql_syntax.specs.Looks.{IsSeen};

use crate::word::QueryWord;
use kola_base::{Lexeme, Lexemes, Named, Sign, Symbol, next_of, symbol_of};
use kola_parse::{Stop, stray};
use std::marker::Model;

/// What a token is to queries; the text of a string is read when it is asked for.
#[derive(Clone, Copy)]
pub(crate) enum Seen<'a> {
    Sign(Sign),
    Word(QueryWord),
    Name(&'a str),
    Number(i64),
    Quoted,
}

/// A token that was looked at, and the tokens behind it.
#[derive(Drop)]
pub(crate) struct First<'a> {
    tokens: Lexemes<'a>,
    rest: Lexemes<'a>,
    at: usize,
    seen: Seen<'a>,
}

impl<'a> Model for First<'a> {
    ghost use Rattle.std.specs.Prelude.{◌≡◌, ◌∷◌, List};
    ghost use Rattle.kola_base.specs.Placed.{Placed};
    ghost use Rattle.oql_syntax.specs.Alphabet.{kind};

    ghost Value = { Placed × List Placed };

    ghost use Rattle.oql_syntax.specs.Looks.{head, IsSeen};

    ghost view = { λ a. (head a.tokens, a.rest) };

    ghost invariant = { λ a. (a.tokens ≡ head a.tokens ∷ a.rest) × (a.at ≡ (head a.tokens).at)
        × IsSeen a.seen (kind (head a.tokens)) };
}

/// What is left of a text, whose first token was looked at.
#[derive(Drop)]
pub(crate) struct Cursor<'a> {
    tokens: Lexemes<'a>,
    first: Option<First<'a>>,
}

impl<'a> Model for Cursor<'a> {
    ghost use Rattle.std.specs.Prelude.{◌≡◌, [], ◌∷◌, List, IfSome, IfNone};
    ghost use Rattle.kola_base.specs.Placed.{Placed};

    ghost Value = { List Placed };

    ghost view = { λ a. a.tokens };

    ghost invariant = { λ a. IfSome a.first (λ f. a.tokens ≡ f.0 ∷ f.1) × IfNone a.first (a.tokens ≡ []) };
}

/// What a symbol is, but for the text of a string.
fn seen_of<'a>(symbol: Symbol<'a, QueryWord>) -> Seen<'a>
    ensures { IsSeen result (symbol_view symbol.entry) }
{
    match symbol {
        Symbol::Sign(sign) => Seen::Sign(sign),
        Symbol::Word(word) => Seen::Word(word),
        Symbol::Name(name) => Seen::Name(name),
        Symbol::Number(value) => Seen::Number(value),
        Symbol::Quoted(_) => Seen::Quoted,
    }
}

impl<'a> First<'a> {
    /// The first of the tokens, or `None` at the end of the text.
    pub fn of(tokens: Lexemes<'a>) -> Option<First<'a>>
        ensures some { IfSome result (λ f. tokens.entry ≡ f.0 ∷ f.1) }
        ensures none { IfNone result (tokens.entry ≡ []) }
    {
        let (first, rest) = tokens.split()?;
        let at = first.at;
        let seen = seen_of(symbol_of::<QueryWord>(first.says));
        Some(First {
            tokens,
            rest,
            at,
            seen,
        })
    }

    /// The same once more.
    fn again(&self) -> First<'a>
        ensures { result ≡ self.now }
    {
        First {
            tokens: self.tokens.again(),
            rest: self.rest.again(),
            at: self.at,
            seen: self.seen,
        }
    }

    /// What the token is.
    pub fn symbol(&self) -> Symbol<'a, QueryWord>
        ensures { symbol_view result ≡ kind self.now.0 }
    {
        match self.seen {
            Seen::Sign(sign) => Symbol::Sign(sign),
            Seen::Word(word) => Symbol::Word(word),
            Seen::Name(name) => Symbol::Name(name),
            Seen::Number(value) => Symbol::Number(value),
            Seen::Quoted => match self.tokens.split() {
                Some((first, _)) => symbol_of::<QueryWord>(first.says),
                None => Symbol::Number(0),
            },
        }
    }

    /// The word that the token is, as it is written, whatever word it is.
    pub fn word(&self) -> Option<Named<'a>>
        ensures { option_map named_view result ≡ name_of self.now.0 }
    {
        let (first, _) = self.tokens.split()?;
        first.name()
    }

    /// Where the token begins, in bytes from 0.
    pub fn at(&self) -> usize
        ensures { result ≡ self.now.0.at }
    {
        self.at
    }

    /// The tokens behind it.
    pub fn rest(&self) -> Lexemes<'a>
        ensures { result ≡ self.now.1 }
    {
        self.rest.again()
    }

    /// The tokens from it on.
    pub fn tokens(&self) -> Lexemes<'a>
        ensures { result ≡ self.now.0 ∷ self.now.1 }
    {
        self.tokens.again()
    }
}

impl<'a> Cursor<'a> {
    /// These tokens, with a look at the first one.
    pub fn of(tokens: Lexemes<'a>) -> Cursor<'a>
        ensures { result ≡ tokens.entry }
    {
        let first = First::of(tokens.again());
        Cursor { tokens, first }
    }

    /// The first token and the others, or `None` at the end of the text.
    pub fn first(&self) -> Option<First<'a>>
        ensures some { IfSome result (λ f. self.now ≡ f.0 ∷ f.1) }
        ensures none { IfNone result (self.now ≡ []) }
    {
        match &self.first {
            Some(first) => Some(first.again()),
            None => None,
        }
    }

    /// The tokens.
    pub fn tokens(&self) -> Lexemes<'a>
        ensures { result ≡ self.now }
    {
        self.tokens.again()
    }
}

/// The first token with a look at it, and the others; the end of the text is refused.
pub(crate) fn first_of<'a>(tokens: Lexemes<'a>) -> Result<First<'a>, Stop<Lexemes<'a>>>
    ensures ok { IfOk result (λ f. tokens.entry ≡ f.0 ∷ f.1) }
    ensures err { IfErr result (λ e. (tokens.entry ≡ []) × (e ≡ Before Unexpected [])) }
{
    match First::of(tokens.again()) {
        Some(first) => Ok(first),
        None => stray(tokens),
    }
}

/// What stands behind the word, which must come first, in any case of its letters.
pub(crate) fn expect_word<'a>(
    wanted: QueryWord,
    tokens: Lexemes<'a>,
) -> Result<Lexemes<'a>, Stop<Lexemes<'a>>>
    ensures { Gives (λ x. (tt, x)) result (expect (is_word wanted) tokens.entry) }
{
    let (first, rest) = next_of(&tokens)?;
    match first.says {
        Lexeme::Word(found) if found.eq_ignore_ascii_case(wanted.spelling()) => Ok(rest),
        _ => stray(tokens),
    }
}

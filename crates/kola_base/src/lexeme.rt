//! What tokens say, read one by one.

ghost use Rattle.std.specs.Prelude.{◌≡◌, [], ◌∷◌, ◌<◌, List, ℕ, true, drop, length, IfSome, IfNone, IfOk};
ghost use Rattle.kola_base.specs.declared.scan.Sort.TheVariants as sorts;
ghost use Rattle.kola_base.specs.Pieces.{piece};
ghost use Rattle.kola_base.specs.Lexemes.{lexeme_of};
ghost use Rattle.kola_base.specs.LexemeViews.{lexeme_view, placed_view};
ghost use Rattle.kola_base.specs.Placed.{placed, place};
ghost use Rattle.kola_base.specs.Tokens.{AreTokens, IsTokenIn};

use crate::lex::{Kind, Token};
use crate::number::number_of;
use crate::sign::{Sign, sign_of};
use crate::strings::string_of;
use kola_core::{Memory, Text};
use std::alloc::Global;
use std::marker::Model;

/// A string of a text, whose escapes are read when they are asked for.
#[derive(Drop)]
pub struct Quote<'a> {
    string: &'a [u8],
}

impl<'a> Model for Quote<'a> {
    ghost use Rattle.std.specs.Prelude.{◌≡◌, ◌≤◌, List, ℕ, None, length};
    ghost use Rattle.kola_base.specs.Strings.{string_fault, string_value};

    ghost Value = { List ℕ };

    ghost view = { λ a. string_value a.string.now };

    ghost invariant = { λ a. (2 ≤ length a.string.now) × (string_fault a.string.now ≡ None) };
}

impl Quote<'_> {
    /// The text that the string writes, its escapes read. Only want of memory is refused.
    pub fn to_text(&self, alloc: Global) -> Result<Text, Memory>
        ensures { IfOk result (λ t. t ≡ self.now) }
    {
        let bytes = string_of(alloc, self.string)?;
        let text = String::from_utf8(bytes).unwrap();
        Text::from_string(text)
    }
}

/// What a token says.
#[derive(Drop)]
pub enum Lexeme<'a> {
    /// A word as it stands.
    Word(&'a str),
    /// The integer that a number writes.
    Number(i64),
    /// A string, by the text that it writes.
    Quoted(Quote<'a>),
    Sign(Sign),
}

/// What a token says, and the place of its first byte in the text, counted in bytes from 0.
#[derive(Drop)]
pub struct Placed<'a> {
    pub says: Lexeme<'a>,
    pub at: usize,
}

/// What is left of a text, as what its tokens say.
#[derive(Drop)]
pub struct Lexemes<'a> {
    text: &'a [u8],
    left: &'a [Token],
}

impl<'a> Model for Lexemes<'a> {
    ghost use Rattle.std.specs.Prelude.{List};
    ghost use Rattle.kola_base.specs.Placed.{Placed, placed, AreLeft};

    ghost Value = { List Placed };

    ghost view = { λ a. placed a.text.now a.left.now };

    ghost invariant = { λ a. AreLeft a.text.now a.left.now };
}

/// A word as text.
fn word_text(word: &[u8]) -> &str
    requires { piece sorts.Word word.now ≡ true }
    ensures { result.now ≡ word.now }
{
    str::from_utf8(word).unwrap()
}

/// What a token says; the end says nothing.
fn lexeme_of<'a>(text: &'a [u8], token: &Token) -> Option<Lexeme<'a>>
    requires { IsTokenIn text.now token.now }
    ensures some { IfSome result (λ l. lexeme_of text.now token.now ≡ lexeme_view l ∷ []) }
    ensures none { IfNone result (lexeme_of text.now token.now ≡ []) }
{
    let bytes = &text[token.from..token.to];
    match token.kind {
        Kind::Word => Some(Lexeme::Word(word_text(bytes))),
        Kind::Number => Some(Lexeme::Number(number_of(text, token))),
        Kind::Quoted => Some(Lexeme::Quoted(Quote { string: bytes })),
        Kind::Sign => Some(Lexeme::Sign(sign_of(bytes))),
        Kind::End => None,
    }
}

impl<'a> Lexemes<'a> {
    /// What the tokens of a text say from the one of this index on, which may be the end.
    pub fn from_token(text: &'a [u8], tokens: &'a [Token], from: usize) -> Lexemes<'a>
        requires tokens { AreTokens tokens.now text.now }
        requires within { from < length tokens.now }
        ensures { result ≡ placed text.now (drop from tokens.now) }
    {
        Lexemes {
            text,
            left: &tokens[from..],
        }
    }

    /// The first one and the others, or `None` at the end of the text.
    pub fn split(&self) -> Option<(Placed<'a>, Lexemes<'a>)>
        ensures some { IfSome result (λ x. self.now ≡ placed_view x.0 ∷ x.1) }
        ensures none { IfNone result (self.now ≡ []) }
    {
        let [first, left @ ..] = self.left else {
            return None;
        };
        let says = lexeme_of(self.text, first)?;
        let at = first.from;
        Some((
            Placed { says, at },
            Lexemes {
                text: self.text,
                left,
            },
        ))
    }

    /// The same ones once more.
    pub fn again(&self) -> Lexemes<'a>
        ensures { result ≡ self.now }
    {
        Lexemes {
            text: self.text,
            left: self.left,
        }
    }

    /// The place of the first one, or `end` where none is left.
    pub fn place(&self, end: usize) -> usize
        ensures { result ≡ place end self.now }
    {
        match self.split() {
            Some((first, _)) => first.at,
            None => end,
        }
    }

    /// How many are left. The end of the text is none.
    pub fn len(&self) -> usize
        ensures { result ≡ length self.now }
    {
        self.left.len() - 1
    }
}

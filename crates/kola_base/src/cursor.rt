//! Single tokens of a text, as readers take them.

ghost use Rattle.std.specs.Prelude.{◌≡◌, [], ◌∷◌, IfOk, IfErr};
ghost use Rattle.kola_parse.specs.declared.stop.Stop.TheVariants.{Before};
ghost use Rattle.kola_parse.specs.declared.why.Why.TheVariants.{Unexpected};
ghost use Rattle.kola_parse.specs.Kinds.{expect};
ghost use Rattle.kola_parse.specs.Given.{Gives};
ghost use Rattle.kola_base.specs.LexemeViews.{placed_view};
ghost use Rattle.kola_base.specs.Alphabets.{sign, word};

use crate::lexeme::{Lexeme, Lexemes, Placed};
use crate::sign::Sign;
use kola_parse::{Stop, stray};

/// The first token and the others; the end of the text is refused.
pub fn next_of<'a>(tokens: &Lexemes<'a>) -> Result<(Placed<'a>, Lexemes<'a>), Stop<Lexemes<'a>>>
    ensures ok { IfOk result (λ x. tokens.now ≡ placed_view x.0 ∷ x.1) }
    ensures err { IfErr result (λ e. (tokens.now ≡ []) × (e ≡ Before Unexpected [])) }
{
    let Some(first) = tokens.split() else {
        return stray(tokens.again());
    };
    Ok(first)
}

/// What stands behind the sign, which must come first.
pub fn expect_sign<'a>(wanted: Sign, tokens: Lexemes<'a>) -> Result<Lexemes<'a>, Stop<Lexemes<'a>>>
    ensures { Gives (λ x. (tt, x)) result (expect (sign wanted) tokens.entry) }
{
    let (first, rest) = next_of(&tokens)?;
    match first.says {
        Lexeme::Sign(found) if found.spelling() == wanted.spelling() => Ok(rest),
        _ => stray(tokens),
    }
}

/// What stands behind the word, which must come first.
pub fn expect_word<'a>(wanted: &str, tokens: Lexemes<'a>) -> Result<Lexemes<'a>, Stop<Lexemes<'a>>>
    ensures { Gives (λ x. (tt, x)) result (expect (word wanted.now) tokens.entry) }
{
    let (first, rest) = next_of(&tokens)?;
    match first.says {
        Lexeme::Word(found) if found == wanted => Ok(rest),
        _ => stray(tokens),
    }
}

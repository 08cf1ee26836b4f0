//! The integers that numbers write.

ghost use Rattle.std.specs.Prelude.{◌≡◌, true, false, MatchOption};
ghost use Rattle.kola_base.specs.declared.lex.Kind.TheVariants as kinds;
ghost use Rattle.kola_base.specs.declared.scan.Sort.TheVariants.{Number};
ghost use Rattle.kola_base.specs.Numbers.{number_value};
ghost use Rattle.kola_core.specs.Integers.{in_64};
ghost use Rattle.kola_base.specs.Pieces.{piece};
ghost use Rattle.kola_base.specs.Tokens.{bytes_of, IsTokenIn};

use crate::lex::Token;

/// The integer that a number writes, or none where it is not one of 64 bits.
pub fn value_of(number: &[u8]) -> Option<i64>
    requires { piece Number number.now ≡ true }
    ensures { MatchOption result
        (in_64 (number_value number.now) ≡ false)
        (λ z. (in_64 (number_value number.now) ≡ true) × (z ≡ number_value number.now)) }
{
    match str::from_utf8(number) {
        Ok(text) => text.parse().ok(),
        Err(_) => None,
    }
}

/// The integer that a number token of the text writes: decimal digits, behind a `-` where it is negative.
///
/// Each token that `tokens` answers for the text stands in it as the second condition says. No memory is taken.
pub fn number_of(text: &[u8], token: &Token) -> i64
    requires number { token.now.kind ≡ kinds.Number }
    requires in_text { IsTokenIn text.now token.now }
    ensures { result ≡ number_value (bytes_of text.now token.now) }
{
    value_of(&text[token.from..token.to]).unwrap()
}

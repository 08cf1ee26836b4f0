//! The word that a fault names: one that queries leave out, or a `select` without its `distinct`.

ghost use Rattle.std.specs.Prelude.{◌≡◌, ◌&&◌, not, take};
ghost use Rattle.std.specs.Option.{option_map};
ghost use Rattle.kola_base.specs.AlphabetViews.{symbol_view};
ghost use Rattle.oql_syntax.specs.Alphabet.{KOther};
ghost use Rattle.oql_syntax.specs.QueryFaults.{before_rest, ends_in_select, left_out_first, word_outside};
ghost use Rattle.oql_syntax.specs.QueryForms.{now};
ghost use Rattle.oql_syntax.specs.Roles.{role, labels_next, is_select_role};

use crate::word::QueryWord;
use kola_base::{Alphabet, Lexeme, Lexemes, Sign, Symbol, symbol_of};

/// What a token is to a `select` behind it.
#[derive(Clone, Copy)]
enum Role {
    Select,
    Struct,
    Open,
    /// `.`, `->` or a comma.
    BeforeLabel,
    Other,
}

fn role_of(symbol: Symbol<'_, QueryWord>) -> Role
    ensures { result ≡ role (symbol_view symbol.entry) }
{
    match symbol {
        Symbol::Word(QueryWord::Select) => Role::Select,
        Symbol::Word(QueryWord::Struct) => Role::Struct,
        Symbol::Sign(Sign::Open) => Role::Open,
        Symbol::Sign(Sign::Dot | Sign::Arrow | Sign::Comma) => Role::BeforeLabel,
        _ => Role::Other,
    }
}

/// Whether a word behind two tokens of these roles is a label.
fn labels_next(before: Role, last: Role) -> bool
    ensures { result ≡ labels_next before last }
{
    matches!(
        (before, last),
        (_, Role::BeforeLabel) | (Role::Struct, Role::Open)
    )
}

/// Whether a token of the last role, behind two tokens of these roles, is a `select` that is no label.
fn is_bare_select(before: Role, last: Role, role: Role) -> bool
    ensures { result ≡ (is_select_role role && not (labels_next before last)) }
{
    matches!(role, Role::Select) && !labels_next(before, last)
}

/// Whether the last of so many of the first tokens is a `select` that is no label.
fn ends_in_select(tokens: Lexemes<'_>, count: usize) -> bool
    ensures { result ≡ ends_in_select KOther KOther (take count tokens.entry) }
{
    let mut rest = tokens;
    let mut left = count;
    let mut before = Role::Other;
    let mut last = Role::Other;
    let mut ends = false;
    while left > 0 {
        let Some((first, behind)) = rest.split() else {
            return ends;
        };
        let role = role_of(symbol_of::<QueryWord>(first.says));
        ends = is_bare_select(before, last, role);
        before = last;
        last = role;
        rest = behind;
        left -= 1;
    }
    ends
}

/// The word that comes first, as it is written, if queries leave it out.
fn left_out_first<'a>(tokens: &Lexemes<'a>) -> Option<&'a str>
    ensures { option_map now result ≡ left_out_first tokens.now }
{
    let (first, _) = tokens.split()?;
    let Lexeme::Word(word) = first.says else {
        return None;
    };
    match QueryWord::named(word) {
        Some(QueryWord::LeftOut) => Some(word),
        _ => None,
    }
}

/// The word that a fault before the rest of the tokens names, if it names one.
pub(crate) fn word_outside<'a>(tokens: Lexemes<'a>, rest: &Lexemes<'a>) -> Option<&'a str>
    ensures { option_map now result ≡ word_outside (before_rest tokens.entry rest.now) rest.now }
{
    let count = tokens.len().saturating_sub(rest.len());
    if ends_in_select(tokens, count) {
        Some("select")
    } else {
        left_out_first(rest)
    }
}

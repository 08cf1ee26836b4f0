//! The words of terms and rules.

ghost use Rattle.std.specs.Prelude.{◌≡◌};
ghost use Rattle.std.specs.List.{find};
ghost use Rattle.std.specs.Str.{bytes_eq};
ghost use Rattle.kola_base.specs.TermWords.{term_word_spelling, term_word_named, words_of_length};

use crate::alphabet::Alphabet;

/// A word that terms or rules have, so that it is no name there.
#[derive(Clone, Copy, Debug, PartialEq, Eq)]
pub enum TermWord {
    /// `id`
    Id,
    /// `fst`
    Fst,
    /// `snd`
    Snd,
    /// `flat`
    Flat,
    /// `union`
    Union,
    /// `isect`
    Isect,
    /// `minus`
    Minus,
    /// `o`
    O,
    /// `K`
    K,
    /// `C`
    C,
    /// `if`
    If,
    /// `iterate`
    Iterate,
    /// `iter`
    Iter,
    /// `join`
    Join,
    /// `nest`
    Nest,
    /// `unnest`
    Unnest,
    /// `eq`
    Eq,
    /// `lt`
    Lt,
    /// `le`
    Le,
    /// `in`
    In,
    /// `inv`
    Inv,
    /// `KP`
    KP,
    /// `CP`
    CP,
    /// `ex`
    Ex,
    /// `fa`
    Fa,
    /// `true`
    True,
    /// `false`
    False,
    /// `count`
    Count,
    /// `rule`
    Rule,
    /// `block`
    Block,
    /// `at`
    At,
    /// `when`
    When,
    /// `inj`
    Inj,
    /// `proof`
    Proof,
    /// `by`
    By,
    /// `rev`
    Rev,
    /// `qed`
    Qed,
    /// `here`
    Here,
    /// `pred`
    Pred,
    /// `set`
    Set,
    /// `unit`
    Unit,
    /// `int`
    Int,
    /// `string`
    String,
    /// `bool`
    Bool,
    /// `SKIP`
    Skip,
    /// `FAIL`
    Fail,
    /// `BU`
    Bu,
    /// `TD`
    Td,
    /// `REPEAT`
    Repeat,
    /// `GIVEN`
    Given,
    /// `DO`
    Do,
    /// `END`
    End,
}

/// The words of 1 letter.
const ONE: [TermWord; 3] = [TermWord::O, TermWord::K, TermWord::C];

/// The words of 2 letters.
const TWO: [TermWord; 15] = [
    TermWord::Id,
    TermWord::If,
    TermWord::Eq,
    TermWord::Lt,
    TermWord::Le,
    TermWord::In,
    TermWord::KP,
    TermWord::CP,
    TermWord::Ex,
    TermWord::Fa,
    TermWord::At,
    TermWord::By,
    TermWord::Bu,
    TermWord::Td,
    TermWord::Do,
];

/// The words of 3 letters.
const THREE: [TermWord; 9] = [
    TermWord::Fst,
    TermWord::Snd,
    TermWord::Inv,
    TermWord::Inj,
    TermWord::Rev,
    TermWord::Qed,
    TermWord::Set,
    TermWord::Int,
    TermWord::End,
];

/// The words of 4 letters.
const FOUR: [TermWord; 13] = [
    TermWord::Flat,
    TermWord::Iter,
    TermWord::Join,
    TermWord::Nest,
    TermWord::True,
    TermWord::Rule,
    TermWord::When,
    TermWord::Here,
    TermWord::Pred,
    TermWord::Unit,
    TermWord::Bool,
    TermWord::Skip,
    TermWord::Fail,
];

/// The words of 5 letters.
const FIVE: [TermWord; 8] = [
    TermWord::Union,
    TermWord::Isect,
    TermWord::Minus,
    TermWord::False,
    TermWord::Count,
    TermWord::Block,
    TermWord::Proof,
    TermWord::Given,
];

/// The words of 6 letters.
const SIX: [TermWord; 3] = [TermWord::Unnest, TermWord::String, TermWord::Repeat];

/// The words of 7 letters.
const SEVEN: [TermWord; 1] = [TermWord::Iterate];

impl TermWord {
    /// The text of the word.
    pub fn spelling(self) -> &'static str
        ensures { result.now ≡ term_word_spelling self }
    {
        match self {
            TermWord::Id => "id",
            TermWord::Fst => "fst",
            TermWord::Snd => "snd",
            TermWord::Flat => "flat",
            TermWord::Union => "union",
            TermWord::Isect => "isect",
            TermWord::Minus => "minus",
            TermWord::O => "o",
            TermWord::K => "K",
            TermWord::C => "C",
            TermWord::If => "if",
            TermWord::Iterate => "iterate",
            TermWord::Iter => "iter",
            TermWord::Join => "join",
            TermWord::Nest => "nest",
            TermWord::Unnest => "unnest",
            TermWord::Eq => "eq",
            TermWord::Lt => "lt",
            TermWord::Le => "le",
            TermWord::In => "in",
            TermWord::Inv => "inv",
            TermWord::KP => "KP",
            TermWord::CP => "CP",
            TermWord::Ex => "ex",
            TermWord::Fa => "fa",
            TermWord::True => "true",
            TermWord::False => "false",
            TermWord::Count => "count",
            TermWord::Rule => "rule",
            TermWord::Block => "block",
            TermWord::At => "at",
            TermWord::When => "when",
            TermWord::Inj => "inj",
            TermWord::Proof => "proof",
            TermWord::By => "by",
            TermWord::Rev => "rev",
            TermWord::Qed => "qed",
            TermWord::Here => "here",
            TermWord::Pred => "pred",
            TermWord::Set => "set",
            TermWord::Unit => "unit",
            TermWord::Int => "int",
            TermWord::String => "string",
            TermWord::Bool => "bool",
            TermWord::Skip => "SKIP",
            TermWord::Fail => "FAIL",
            TermWord::Bu => "BU",
            TermWord::Td => "TD",
            TermWord::Repeat => "REPEAT",
            TermWord::Given => "GIVEN",
            TermWord::Do => "DO",
            TermWord::End => "END",
        }
    }
}

/// The words of a length: a word is looked for among those of its own alone.
#[tactic(auto, unfolding(crate::specs::TermWords::words_of_length, crate::specs::TermWords::term_words))]
fn words_of_length(length: usize) -> &'static [TermWord]
    ensures { result.now ≡ words_of_length length }
{
    match length {
        1 => &ONE,
        2 => &TWO,
        3 => &THREE,
        4 => &FOUR,
        5 => &FIVE,
        6 => &SIX,
        7 => &SEVEN,
        _ => &[],
    }
}

/// The first of the words that is written so.
fn written_so(words: &[TermWord], word: &str) -> Option<TermWord>
    ensures { result ≡ find (λ w. bytes_eq (term_word_spelling w) word.now) words.now }
{
    words.iter().copied().find(|known| known.spelling() == word)
}

impl Alphabet for TermWord {
    ghost named = { term_word_named };

    fn named(word: &str) -> Option<TermWord> {
        written_so(words_of_length(word.len()), word)
    }
}

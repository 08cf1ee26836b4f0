//! The words of queries.

ghost use Rattle.std.specs.Prelude.{◌≡◌, ◌↔◌, List, ℕ, true, None, IsTrue};
ghost use Rattle.std.specs.List.{find};
ghost use Rattle.std.specs.Str.{str_eq_ignore_ascii_case};
ghost use Rattle.kola_base.specs.QueryWords.{is_among, words_left_out, is_name};
ghost use Rattle.oql_syntax.specs.Alphabet.{query_word_spelling, query_word_named, or_left_out};
ghost use Rattle.oql_syntax.specs.WordLists.{words_of_length};

use kola_base::Alphabet;

/// A word that has a meaning in queries, so that it is no name there. Words are read in any case.
#[derive(Clone, Copy, Debug, PartialEq, Eq)]
pub enum QueryWord {
    /// `select`
    Select,
    /// `distinct`
    Distinct,
    /// `from`
    From,
    /// `where`
    Where,
    /// `as`
    As,
    /// `in`
    In,
    /// `exists`
    Exists,
    /// `for`
    For,
    /// `all`
    All,
    /// `and`
    And,
    /// `or`
    Or,
    /// `not`
    Not,
    /// `union`
    Union,
    /// `intersect`
    Intersect,
    /// `except`
    Except,
    /// `struct`
    Struct,
    /// `set`
    Set,
    /// `flatten`
    Flatten,
    /// `true`
    True,
    /// `false`
    False,
    /// Any word of the standard that queries leave out.
    LeftOut,
}

/// The words of 2 letters.
const TWO: [QueryWord; 3] = [QueryWord::As, QueryWord::In, QueryWord::Or];

/// The words of 3 letters.
const THREE: [QueryWord; 5] = [
    QueryWord::For,
    QueryWord::All,
    QueryWord::And,
    QueryWord::Not,
    QueryWord::Set,
];

/// The words of 4 letters.
const FOUR: [QueryWord; 2] = [QueryWord::From, QueryWord::True];

/// The words of 5 letters.
const FIVE: [QueryWord; 3] = [QueryWord::Where, QueryWord::Union, QueryWord::False];

/// The words of 6 letters.
const SIX: [QueryWord; 4] = [
    QueryWord::Select,
    QueryWord::Exists,
    QueryWord::Except,
    QueryWord::Struct,
];

/// The words of 7 letters.
const SEVEN: [QueryWord; 1] = [QueryWord::Flatten];

/// The words of 8 letters.
const EIGHT: [QueryWord; 1] = [QueryWord::Distinct];

/// The words of 9 letters.
const NINE: [QueryWord; 1] = [QueryWord::Intersect];

impl QueryWord {
    /// The word in lower case. Words that are left out have no spelling of their own: theirs is empty.
    pub fn spelling(self) -> &'static str
        ensures { result.now ≡ query_word_spelling self }
    {
        match self {
            QueryWord::Select => "select",
            QueryWord::Distinct => "distinct",
            QueryWord::From => "from",
            QueryWord::Where => "where",
            QueryWord::As => "as",
            QueryWord::In => "in",
            QueryWord::Exists => "exists",
            QueryWord::For => "for",
            QueryWord::All => "all",
            QueryWord::And => "and",
            QueryWord::Or => "or",
            QueryWord::Not => "not",
            QueryWord::Union => "union",
            QueryWord::Intersect => "intersect",
            QueryWord::Except => "except",
            QueryWord::Struct => "struct",
            QueryWord::Set => "set",
            QueryWord::Flatten => "flatten",
            QueryWord::True => "true",
            QueryWord::False => "false",
            QueryWord::LeftOut => "",
        }
    }
}

/// The words of a length: a word is looked for among those of its own alone.
#[tactic(auto, unfolding(crate::specs::WordLists::words_of_length, crate::specs::Alphabet::query_words))]
fn words_of_length(length: usize) -> &'static [QueryWord]
    ensures { result.now ≡ words_of_length length }
{
    match length {
        2 => &TWO,
        3 => &THREE,
        4 => &FOUR,
        5 => &FIVE,
        6 => &SIX,
        7 => &SEVEN,
        8 => &EIGHT,
        9 => &NINE,
        _ => &[],
    }
}

/// The first of the words that is written so, in any case.
fn written_so(words: &[QueryWord], word: &str) -> Option<QueryWord>
    ensures { result ≡ find (λ w. str_eq_ignore_ascii_case word.now (query_word_spelling w)) words.now }
{
    words
        .iter()
        .copied()
        .find(|known| word.eq_ignore_ascii_case(known.spelling()))
}

fn is_same_word(word: &[u8], other: &[u8]) -> bool
    ensures { result ≡ str_eq_ignore_ascii_case word.now other.now }
{
    word.eq_ignore_ascii_case(other)
}

/// Whether the word is one of the words, which have a blank between each two.
fn is_among(words: &[u8], word: &[u8]) -> bool
    ensures { result ≡ is_among words.now word.now }
{
    words
        .split(|byte| *byte == b' ')
        .any(|other| is_same_word(word, other))
}

/// Whether the word is one that is left out: it is looked for among those of its own length alone.
fn is_left_out(word: &[u8]) -> bool
    ensures { result ≡ is_among words_left_out word.now }
{
    match word.len() {
        2 => is_among(b"by", word),
        3 => is_among(b"sum avg min max bag nil", word),
        4 => is_among(b"last list like", word),
        5 => is_among(b"first count array order group", word),
        6 => is_among(b"unique having define", word),
        7 => is_among(b"element", word),
        9 => is_among(b"undefined", word),
        _ => false,
    }
}

impl Alphabet for QueryWord {
    ghost named = { query_word_named };

    fn named(word: &str) -> Option<QueryWord> {
        match written_so(words_of_length(word.len()), word) {
            Some(known) => Some(known),
            None if is_left_out(word.as_bytes()) => Some(QueryWord::LeftOut),
            None => None,
        }
    }
}

/// A word may be a name in a query exactly where it is none of the words of queries, nor one of those that they leave out.
pub fn words_of_queries_are_no_names(word: &str)
    ensures { (is_name word.now ≡ true) ↔ (query_word_named word.now ≡ None) }
{}

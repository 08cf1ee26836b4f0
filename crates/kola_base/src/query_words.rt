//! The words of queries.

ghost use Rattle.std.specs.Prelude.{◌≡◌};
ghost use Rattle.std.specs.Str.{str_eq_ignore_ascii_case};
ghost use Rattle.kola_base.specs.QueryWords.{is_among, is_name};

fn is_same_word(word: &[u8], other: &[u8]) -> bool
    ensures { result ≡ str_eq_ignore_ascii_case word.now other.now }
{
    word.eq_ignore_ascii_case(other)
}

fn is_among(words: &[u8], word: &[u8]) -> bool
    ensures { result ≡ is_among words.now word.now }
{
    words
        .split(|byte| *byte == b' ')
        .any(|other| is_same_word(word, other))
}

/// Whether a word may be a name in a query: it is none of the words of queries, nor one of those that they leave out, in any case.
#[tactic(auto, unfolding(crate::specs::QueryWords::is_name))]
pub fn is_name(word: &[u8]) -> bool
    ensures { result ≡ is_name word.now }
{
    !is_among(
        b"select distinct from where as in exists for all and or not union intersect except struct set flatten true false",
        word,
    ) && !is_among(
        b"element first last unique sum avg min max count bag list array order group by having define nil undefined like",
        word,
    )
}

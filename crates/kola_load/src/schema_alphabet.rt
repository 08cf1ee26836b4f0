//! The words of schemas.

ghost use Rattle.std.specs.Prelude.{◌≡◌};
ghost use Rattle.kola_load.specs.SchemaAlphabet.{word_spelling, word_named};

use kola_base::Alphabet;

/// A word that the grammar of schemas names.
#[derive(Clone, Copy)]
pub enum Word {
    Class,
    Extent,
    Key,
    Attribute,
    Int,
    Long,
    String,
    Bool,
    Boolean,
    Set,
}

/// All words.
const WORDS: [Word; 10] = [
    Word::Class,
    Word::Extent,
    Word::Key,
    Word::Attribute,
    Word::Int,
    Word::Long,
    Word::String,
    Word::Bool,
    Word::Boolean,
    Word::Set,
];

impl Word {
    /// The text of the word.
    pub fn spelling(self) -> &'static str
        ensures { result.now ≡ word_spelling self }
    {
        match self {
            Word::Class => "class",
            Word::Extent => "extent",
            Word::Key => "key",
            Word::Attribute => "attribute",
            Word::Int => "int",
            Word::Long => "long",
            Word::String => "string",
            Word::Bool => "bool",
            Word::Boolean => "boolean",
            Word::Set => "set",
        }
    }
}

impl Alphabet for Word {
    ghost named = { word_named };

    #[tactic(auto, unfolding(crate::specs::SchemaAlphabet::word_named, crate::specs::SchemaAlphabet::words))]
    fn named(word: &str) -> Option<Word> {
        WORDS.iter().copied().find(|known| known.spelling() == word)
    }
}

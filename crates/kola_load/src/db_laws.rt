//! A law of the answers to the text of a database.
ghost use Rattle.std.specs.Prelude.{ℕ, List};
ghost use Rattle.kola_values.specs.Databases.{Classes};
ghost use Rattle.kola_load.specs.Loaded.{HasAnswer, OneAnswer};

/// Each text reads as a value that writes the objects of a database without a fault, or has a first fault. A text that has a fault under a
/// schema has no database, and no other fault. It does nothing else.
pub fn a_text_has_one_answer()
    ensures an_answer { (S : Classes) (text : List ℕ) → HasAnswer S text }
    ensures one_answer { OneAnswer }
{}

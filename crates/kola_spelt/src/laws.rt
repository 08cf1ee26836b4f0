//! A law of quoted texts.

ghost use Rattle.std.specs.Prelude.{◌≡◌};
ghost use Rattle.kola_base.specs.Strings.{string_value};
ghost use Rattle.kola_canon.specs.Spelling.{quoted};

/// The quoted form of a text is a string that writes it.
pub fn a_quoted_text_writes_it(text: &str)
    ensures { string_value (quoted text.now) ≡ text.now }
{}

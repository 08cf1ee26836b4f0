//! The class of a byte: what it can be in a token.

ghost use Rattle.std.specs.Prelude.{◌≡◌};
ghost use Rattle.kola_base.specs.Pieces.{class};

/// What a byte is to a token.
#[derive(Clone, Copy, Debug, PartialEq, Eq)]
pub enum Class {
    Blank,
    LineEnd,
    Letter,
    Digit,
    Minus,
    Slash,
    Less,
    Greater,
    Equal,
    Bang,
    Bar,
    Quote,
    Backslash,
    /// A sign that begins no longer one.
    Single,
    /// A byte that stands in comments alone.
    Other,
}

/// The class of a byte.
pub fn class_of(b: u8) -> Class
    ensures { result ≡ class b }
{
    match b {
        b' ' | b'\t' | b'\r' => Class::Blank,
        b'\n' => Class::LineEnd,
        b'a'..=b'z' | b'A'..=b'Z' | b'_' => Class::Letter,
        b'0'..=b'9' => Class::Digit,
        b'-' => Class::Minus,
        b'/' => Class::Slash,
        b'<' => Class::Less,
        b'>' => Class::Greater,
        b'=' => Class::Equal,
        b'!' => Class::Bang,
        b'|' => Class::Bar,
        b'"' => Class::Quote,
        b'\\' => Class::Backslash,
        b'(' | b')' | b'{' | b'}' | b',' | b';' | b':' | b'.' | b'&' | b'~' | b'@' | b'*' => {
            Class::Single
        }
        _ => Class::Other,
    }
}

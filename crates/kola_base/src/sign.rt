//! The signs of texts.

ghost use Rattle.std.specs.Prelude.{◌≡◌, true};
ghost use Rattle.std.specs.List.{find};
ghost use Rattle.std.specs.Str.{bytes_eq};
ghost use Rattle.kola_base.specs.declared.scan.Sort.TheVariants as sorts;
ghost use Rattle.kola_base.specs.Pieces.{piece};
ghost use Rattle.kola_base.specs.Signs.{sign_spelling, sign_named};

/// A sign of a text; each grammar takes those that it has.
#[derive(Clone, Copy, Debug, PartialEq, Eq)]
pub enum Sign {
    /// `(`
    Open,
    /// `)`
    Close,
    /// `{`
    LeftBrace,
    /// `}`
    RightBrace,
    /// `<`
    Less,
    /// `>`
    Greater,
    /// `<=`
    LessEqual,
    /// `>=`
    GreaterEqual,
    /// `=`
    Equal,
    /// `!=`
    NotEqual,
    /// `,`
    Comma,
    /// `;`
    Semicolon,
    /// `:`
    Colon,
    /// `.`
    Dot,
    /// `->`
    Arrow,
    /// `||`
    Bars,
    /// `|`
    Or,
    /// `&`
    And,
    /// `~`
    Not,
    /// `@`
    At,
    /// `*`
    Star,
}

/// All signs.
const SIGNS: [Sign; 21] = [
    Sign::Open,
    Sign::Close,
    Sign::LeftBrace,
    Sign::RightBrace,
    Sign::Less,
    Sign::Greater,
    Sign::LessEqual,
    Sign::GreaterEqual,
    Sign::Equal,
    Sign::NotEqual,
    Sign::Comma,
    Sign::Semicolon,
    Sign::Colon,
    Sign::Dot,
    Sign::Arrow,
    Sign::Bars,
    Sign::Or,
    Sign::And,
    Sign::Not,
    Sign::At,
    Sign::Star,
];

impl Sign {
    /// The bytes that write the sign.
    pub fn spelling(self) -> &'static [u8]
        ensures { result.now ≡ sign_spelling self }
    {
        match self {
            Sign::Open => b"(",
            Sign::Close => b")",
            Sign::LeftBrace => b"{",
            Sign::RightBrace => b"}",
            Sign::Less => b"<",
            Sign::Greater => b">",
            Sign::LessEqual => b"<=",
            Sign::GreaterEqual => b">=",
            Sign::Equal => b"=",
            Sign::NotEqual => b"!=",
            Sign::Comma => b",",
            Sign::Semicolon => b";",
            Sign::Colon => b":",
            Sign::Dot => b".",
            Sign::Arrow => b"->",
            Sign::Bars => b"||",
            Sign::Or => b"|",
            Sign::And => b"&",
            Sign::Not => b"~",
            Sign::At => b"@",
            Sign::Star => b"*",
        }
    }
}

/// The sign that the bytes write, if there is one.
#[tactic(auto, unfolding(crate::specs::Signs::sign_named, crate::specs::Signs::signs))]
fn sign_named(bytes: &[u8]) -> Option<Sign>
    ensures { result ≡ sign_named bytes.now }
{
    SIGNS.iter().copied().find(|sign| sign.spelling() == bytes)
}

/// The sign that a piece of a text is.
pub(crate) fn sign_of(bytes: &[u8]) -> Sign
    requires { piece sorts.Sign bytes.now ≡ true }
    ensures { sign_spelling result ≡ bytes.now }
{
    sign_named(bytes).unwrap()
}

//! Causes of a syntax fault.

/// Why a text is refused at a token.
#[derive(Clone, Copy, Debug, PartialEq, Eq)]
pub enum Why {
    /// No text begins so.
    Unexpected,
    /// A text begins so, but none within the limits.
    TooDeep,
}

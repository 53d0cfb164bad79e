//! Kinds of tokens.

/// What a token is.
#[derive(Clone, Copy, Debug, PartialEq, Eq)]
pub enum TokenKind {
    /// Letters, digits and `_`, and no reserved word.
    Name,
    /// A reserved word.
    Word,
    /// Decimal digits.
    Number,
    /// Bytes in double quotes.
    Text,
    /// A sign of one or two bytes.
    Sign,
}

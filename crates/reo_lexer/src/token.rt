//! Tokens and faults.
ghost use Rattle.std.specs.Prelude.{◌≡◌};

use reo_grammar::TokenKind;
use reo_values::NoMemory;
use thiserror::Error;

/// A token of a text; its bytes are `text[start..end]`.
#[derive(Clone, Copy, Debug, PartialEq, Eq)]
pub struct Token {
    pub kind: TokenKind,
    /// The place of its first byte, from 0.
    pub start: usize,
    /// The place behind its last byte.
    pub end: usize,
    /// The line of its bytes, from 1.
    pub line: u32,
}

/// Why a text has no tokens. Each line is counted from 1.
#[derive(Clone, Copy, Debug, PartialEq, Eq, Error)]
pub enum LexFault {
    /// A byte that begins no token, or one in a text in quotes that may not stand there; its line.
    #[error("line {line}: bad byte")]
    BadByte { line: u32 },
    /// A text in quotes meets LF, CR or the end before its closing quote; the line of the opening
    /// one.
    #[error("line {line}: open text")]
    OpenText { line: u32 },
    /// More than 18 digits in a row; their line.
    #[error("line {line}: number too long")]
    NumberTooLong { line: u32 },
    /// Out of memory.
    #[error("no memory")]
    NoMemory,
}

impl From<NoMemory> for LexFault {
    ghost use Rattle.reo_lexer.specs.declared.token.LexFault.TheVariants.{NoMemory as OutOfMemory};

    ghost from_gives = { λ _ e. e ≡ OutOfMemory };

    fn from(_: NoMemory) -> Self {
        LexFault::NoMemory
    }
}

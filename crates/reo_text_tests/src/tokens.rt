//! The kinds, spans and lines of tokens.
use crate::checks::is;
use TokenKind::{Name, Number, Sign, Text, Word};
use reo_lexer::{LexFault, Token, TokenKind, lex};
use reo_values::List;
use std::alloc::Global;

/// A text, and of each token the kind, the start, the end and the line.
const TOKENS: &[(&str, &[(TokenKind, usize, usize, u32)])] = &[
    ("", &[]),
    (
        "in x1<=-2..&&\"a\\\"b\"# no\n\trepeat#",
        &[
            (Word, 0, 2, 1),
            (Name, 3, 5, 1),
            (Sign, 5, 7, 1),
            (Sign, 7, 8, 1),
            (Number, 8, 9, 1),
            (Sign, 9, 11, 1),
            (Sign, 11, 13, 1),
            (Text, 13, 19, 1),
            (Word, 25, 31, 2),
        ],
    ),
    (
        "...===fifo1x\r12ab\n\n_",
        &[
            (Sign, 0, 2, 1),
            (Sign, 2, 3, 1),
            (Sign, 3, 5, 1),
            (Sign, 5, 6, 1),
            (Name, 6, 12, 1),
            (Number, 13, 15, 1),
            (Name, 15, 17, 1),
            (Name, 19, 20, 3),
        ],
    ),
    ("123456789012345678", &[(Number, 0, 18, 1)]),
];

/// The tokens of a short text.
pub fn tokens_of(alloc: Global, text: &[u8]) -> Result<List<Token>, LexFault> {
    if text.len() < 65536 {
        lex(alloc, text)
    } else {
        Err(LexFault::NoMemory)
    }
}

fn is_token(token: &Token, kind: TokenKind, start: usize, end: usize, line: u32) -> bool {
    token.kind == kind && token.start == start && token.end == end && token.line == line
}

fn are_tokens(tokens: &[Token], wanted: &[(TokenKind, usize, usize, u32)]) -> bool {
    let mut all = tokens.len() == wanted.len();
    for (token, (kind, start, end, line)) in tokens.iter().zip(wanted) {
        all = all && is_token(token, *kind, *start, *end, *line);
    }
    all
}

fn has_tokens(alloc: Global, text: &str, wanted: &[(TokenKind, usize, usize, u32)]) -> bool {
    match tokens_of(alloc, text.as_bytes()) {
        Ok(tokens) => are_tokens(tokens.as_slice(), wanted),
        Err(_) => false,
    }
}

#[test]
fn texts_have_their_tokens(rt: HostRuntime) {
    let alloc = rt.alloc();
    for (text, wanted) in TOKENS {
        is(&rt, has_tokens(alloc, text, wanted), text);
    }
}

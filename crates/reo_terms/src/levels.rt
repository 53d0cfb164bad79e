//! The levels of tokens.
ghost use Rattle.std.specs.Prelude.{◌≡◌, ◌<◌, ◌^◌, ◌++◌, ◌∷◌, [], List, IsTrue, ◌↔◌};
ghost use Rattle.reo_grammar.specs.Tokens.{Lexeme, matches};
ghost use Rattle.reo_grammar.specs.Levels.{operators as operator_signs, term_starts, term_ends, IsAbove};
ghost use Rattle.reo_trees.specs.Says.{most_levels};
ghost use Rattle.reo_cursor.specs.Reading.{lexeme_seen};
ghost use Rattle.reo_terms.specs.Counting.{Counts};

use reo_cursor::Seen;
use reo_lexer::TokenKind;

/// The most levels.
const MOST_LEVELS: u64 = 64;

/// What is counted over the tokens up to one.
#[derive(Clone, Copy)]
pub struct Levels {
    /// How many `(` there are.
    pub opened: u64,
    /// How many `)` there are.
    pub closed: u64,
    /// The operators behind the latest `when` or `to`, where no `;`, `{` or `}` stands behind it.
    pub operators: u64,
    /// Whether there is such a word.
    pub in_term: bool,
}

#[tactic(auto, using(crate::proofs::Among::matches_more))]
fn starts_term(seen: Seen) -> bool
    ensures { result ≡ matches term_starts (lexeme_seen seen.entry) }
{
    seen.is(b"when") || seen.is(b"to")
}

#[tactic(auto, using(crate::proofs::Among::matches_more))]
fn ends_term(seen: Seen) -> bool
    ensures { result ≡ matches term_ends (lexeme_seen seen.entry) }
{
    seen.is(b";") || seen.is(b"{") || seen.is(b"}")
}

fn is_operator(seen: Seen) -> bool
    ensures { result ≡ matches operator_signs (lexeme_seen seen.entry) }
{
    match seen.kind {
        TokenKind::Word | TokenKind::Sign => matches!(
            seen.bytes,
            b"||"
                | b"&&"
                | b"=="
                | b"!="
                | b"<"
                | b"<="
                | b">"
                | b">="
                | b"+"
                | b"-"
                | b"*"
                | b"/"
                | b"%"
                | b"!"
        ),
        _ => false,
    }
}

impl Levels {
    /// Before all tokens.
    pub fn new() -> Levels
        ensures { Counts result [] }
    {
        Levels {
            opened: 0,
            closed: 0,
            operators: 0,
            in_term: false,
        }
    }

    /// With one more token.
    pub fn after(self, seen: Seen) -> Levels
        requires opened { self.opened < 2 ^ 63 }
        requires closed { self.closed < 2 ^ 63 }
        requires operators { self.operators < 2 ^ 63 }
        ensures { (ts : List Lexeme) → Counts self ts
            → Counts result (ts ++ lexeme_seen seen.entry ∷ []) }
    {
        let starts = starts_term(seen);
        let ends = ends_term(seen);
        let further = if is_operator(seen) { 1 } else { 0 };
        Levels {
            opened: if seen.is(b"(") { 1 } else { 0 } + self.opened,
            closed: if seen.is(b")") { 1 } else { 0 } + self.closed,
            operators: if starts || ends || !self.in_term {
                0
            } else {
                further + self.operators
            },
            in_term: starts || (!ends && self.in_term),
        }
    }

    /// Whether the level at the last token is above the most levels.
    pub fn is_above(self) -> bool
        requires opened { self.opened < 2 ^ 63 }
        requires closed { self.closed < 2 ^ 63 }
        requires operators { self.operators < 2 ^ 63 }
        ensures { (ts : List Lexeme) → Counts self ts → IsTrue result ↔ IsAbove most_levels ts }
    {
        MOST_LEVELS + self.closed < self.opened + self.operators
    }
}

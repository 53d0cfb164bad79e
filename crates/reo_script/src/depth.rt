//! What is too deep in a script.
ghost use Rattle.std.specs.Prelude.{◌≡◌, ◌<◌, ◌^◌, ◌++◌, ◌∷◌, [], List, length, All, MatchOption, IsTrue, ◌↔◌};
ghost use Rattle.reo_grammar.specs.Tokens.{Lexeme};
ghost use Rattle.reo_grammar.specs.Levels.{Nowhere};
ghost use Rattle.reo_lexer.specs.Lexing.{Lies, lexemes_of};
ghost use Rattle.reo_cursor.specs.Reading.{lexeme_seen};
ghost use Rattle.reo_terms.specs.Refused.{IsFirstDeep};
ghost use Rattle.reo_script.specs.scripts.ScriptAnswers.{IsDeep, IsNested};
ghost use Rattle.reo_script.specs.RepeatDepth.{Deepens};

use reo_cursor::{Seen, seen_of};
use reo_lexer::Token;
use reo_terms::Levels;

/// In how many others a `repeat` may stand at most, with one more.
const MOST_REPEATS: u64 = 16;

/// What is counted over the tokens up to one.
#[derive(Clone, Copy)]
pub struct RepeatDepth {
    /// The levels of parentheses and operators.
    pub levels: Levels,
    /// How many `{` there are.
    pub opened: u64,
    /// How many `}` there are.
    pub closed: u64,
    /// Whether the token is a `repeat`.
    pub repeated: bool,
}

impl RepeatDepth {
    /// Before all tokens.
    fn new() -> RepeatDepth
        ensures { Deepens result [] }
    {
        RepeatDepth {
            levels: Levels::new(),
            opened: 0,
            closed: 0,
            repeated: false,
        }
    }

    /// With one more token.
    fn after(self, seen: Seen) -> RepeatDepth
        requires parentheses { self.levels.opened < 2 ^ 63 }
        requires closing { self.levels.closed < 2 ^ 63 }
        requires operators { self.levels.operators < 2 ^ 63 }
        requires opened { self.opened < 2 ^ 63 }
        requires closed { self.closed < 2 ^ 63 }
        ensures { (ts : List Lexeme) → Deepens self ts
            → Deepens result (ts ++ lexeme_seen seen.entry ∷ []) }
    {
        RepeatDepth {
            levels: self.levels.after(seen),
            opened: if seen.is(b"{") { 1 } else { 0 } + self.opened,
            closed: if seen.is(b"}") { 1 } else { 0 } + self.closed,
            repeated: seen.is(b"repeat"),
        }
    }

    /// Whether the token is a `repeat` in sixteen others.
    fn is_nested(self) -> bool
        requires closed { self.closed < 2 ^ 63 }
        ensures { (ts : List Lexeme) → Deepens self ts → IsTrue result ↔ IsNested 16 ts }
    {
        self.repeated && MOST_REPEATS + self.closed < self.opened
    }

    /// Whether the token is too deep.
    fn is_deep(self) -> bool
        requires parentheses { self.levels.opened < 2 ^ 63 }
        requires closing { self.levels.closed < 2 ^ 63 }
        requires operators { self.levels.operators < 2 ^ 63 }
        requires closed { self.closed < 2 ^ 63 }
        ensures { (ts : List Lexeme) → Deepens self ts → IsTrue result ↔ IsDeep ts }
    {
        self.levels.is_above() || self.is_nested()
    }
}

/// The place of the first token that is too deep.
pub fn first_deep(text: &[u8], tokens: &[Token]) -> Option<usize>
    requires spans { All (Lies text.now) tokens.now }
    requires few { length tokens.now < 2 ^ 32 }
    ensures { MatchOption result (Nowhere IsDeep (lexemes_of text.now tokens.now))
        (λ place. IsFirstDeep IsDeep (lexemes_of text.now tokens.now) place) }
{
    let mut depth = RepeatDepth::new();
    for (place, token) in tokens.iter().enumerate() {
        depth = depth.after(seen_of(text, *token));
        if depth.is_deep() {
            return Some(place);
        }
    }
    None
}

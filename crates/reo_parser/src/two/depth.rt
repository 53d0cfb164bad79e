//! What is too deep in a text of version 2.
ghost use Rattle.std.specs.Prelude.{◌≡◌, ◌<◌, ◌^◌, ◌++◌, ◌∷◌, [], List, length, All, MatchOption, IsTrue, ◌↔◌};
ghost use Rattle.reo_grammar.specs.Tokens.{Lexeme, matches};
ghost use Rattle.reo_grammar.specs.Levels.{Nowhere};
ghost use Rattle.reo_lexer.specs.Lexing.{Lies, lexemes_of};
ghost use Rattle.reo_cursor.specs.Reading.{lexeme_seen};
ghost use Rattle.reo_trees.specs.SaysTwo.{IsDeepTwo, IsLooped, item_starts, most_loops};
ghost use Rattle.reo_trees.specs.loops.Places.{is_for};
ghost use Rattle.reo_terms.specs.Refused.{IsFirstDeep};
ghost use Rattle.reo_parser.specs.two.LoopDepth.{Deepens};

use reo_cursor::{Seen, seen_of};
use reo_lexer::{Token, TokenKind};
use reo_terms::Levels;

/// In how many others a loop may stand at most, with one more.
const MOST_LOOPS: u64 = 8;

/// What is counted over the tokens up to one.
#[derive(Clone, Copy)]
pub struct LoopDepth {
    /// The levels of parentheses and operators.
    pub levels: Levels,
    /// How many `{` there are.
    pub opened: u64,
    /// How many `}` there are.
    pub closed: u64,
    /// Whether an item may begin behind the token.
    pub starting: bool,
    /// Whether a loop begins with the token.
    pub looping: bool,
}

/// Whether an item may stand behind the token.
#[tactic(auto, using(reo_terms::proofs::Among::matches_more))]
fn starts_item(seen: Seen) -> bool
    ensures { result ≡ matches item_starts (lexeme_seen seen.entry) }
{
    seen.is(b"{") || seen.is(b"}") || seen.is(b";")
}

/// Whether the token is the name that begins a loop.
fn is_name_of_loops(seen: Seen) -> bool
    ensures { result ≡ is_for (lexeme_seen seen.entry) }
{
    seen.kind == TokenKind::Name && seen.bytes == b"for".as_slice()
}

impl LoopDepth {
    /// Before all tokens.
    fn new() -> LoopDepth
        ensures { Deepens result [] }
    {
        LoopDepth {
            levels: Levels::new(),
            opened: 0,
            closed: 0,
            starting: false,
            looping: false,
        }
    }

    /// With one more token.
    fn after(self, seen: Seen) -> LoopDepth
        requires parentheses { self.levels.opened < 2 ^ 63 }
        requires closing { self.levels.closed < 2 ^ 63 }
        requires operators { self.levels.operators < 2 ^ 63 }
        requires opened { self.opened < 2 ^ 63 }
        requires closed { self.closed < 2 ^ 63 }
        ensures { (ts : List Lexeme) → Deepens self ts
            → Deepens result (ts ++ lexeme_seen seen.entry ∷ []) }
    {
        LoopDepth {
            levels: self.levels.after(seen),
            opened: if seen.is(b"{") { 1 } else { 0 } + self.opened,
            closed: if seen.is(b"}") { 1 } else { 0 } + self.closed,
            starting: starts_item(seen),
            looping: self.starting && is_name_of_loops(seen),
        }
    }

    /// Whether the token begins a loop in eight others.
    fn is_looped(self) -> bool
        requires closed { self.closed < 2 ^ 63 }
        ensures { (ts : List Lexeme) → Deepens self ts → IsTrue result ↔ IsLooped most_loops ts }
    {
        self.looping && MOST_LOOPS + self.closed < self.opened
    }

    /// Whether the token is too deep.
    fn is_deep(self) -> bool
        requires parentheses { self.levels.opened < 2 ^ 63 }
        requires closing { self.levels.closed < 2 ^ 63 }
        requires operators { self.levels.operators < 2 ^ 63 }
        requires closed { self.closed < 2 ^ 63 }
        ensures { (ts : List Lexeme) → Deepens self ts → IsTrue result ↔ IsDeepTwo ts }
    {
        self.levels.is_above() || self.is_looped()
    }
}

/// The place of the first token that is too deep.
pub fn first_deep(text: &[u8], tokens: &[Token]) -> Option<usize>
    requires spans { All (Lies text.now) tokens.now }
    requires few { length tokens.now < 2 ^ 32 }
    ensures { MatchOption result (Nowhere IsDeepTwo (lexemes_of text.now tokens.now))
        (λ place. IsFirstDeep IsDeepTwo (lexemes_of text.now tokens.now) place) }
{
    let mut depth = LoopDepth::new();
    for (place, token) in tokens.iter().enumerate() {
        depth = depth.after(seen_of(text, *token));
        if depth.is_deep() {
            return Some(place);
        }
    }
    None
}

//! The place among the tokens.
ghost use Rattle.std.specs.Prelude.{◌≡◌, ◌≢◌, ℕ, ◌<◌, ◌≤◌, List, [], ◌∷◌, drop, length, All, MatchOption, IfOk, true};
ghost use Rattle.reo_grammar.specs.Tokens.{Lexeme, AreReal, is_real};
ghost use Rattle.reo_grammar.specs.Tokens.Class.{fixed, other, name as name_class, named, number as number_class, text as text_class};
ghost use Rattle.reo_grammar.specs.Grammar.{starts, line_of};
ghost use Rattle.reo_lexer.specs.Lexing.{Lies, lexemes_of};
ghost use Rattle.reo_cursor.specs.Reading.{Gives, NeedsNoMemory, StaysWithoutMemory, lexeme_seen, value_at, word_at, name_at, named_at, number_at, text_at};

use crate::bytes::{number_of, text_of};
use crate::{Halt, Seen, seen_of};
use reo_lexer::{Token, TokenKind};
use reo_values::Bytes;
use std::alloc::Global;
use std::marker::Model;

/// The tokens of a text that are left.
#[derive(Drop)]
pub struct Cursor<'a> {
    text: &'a [u8],
    tokens: &'a [Token],
    at: usize,
}

impl<'a> Model for Cursor<'a> {
    ghost use Rattle.std.specs.Prelude.{List, drop, ◌≤◌, length, All};
    ghost use Rattle.reo_grammar.specs.Tokens.{Lexeme, AreReal};
    ghost use Rattle.reo_lexer.specs.Lexing.{Lies, lexemes_of};

    ghost Value = { List Lexeme };

    ghost view = { λ c. drop c.at (lexemes_of c.text.now c.tokens.now) };

    ghost invariant = { λ c. (c.at ≤ length c.tokens.now) × All (Lies c.text.now) c.tokens.now
        × AreReal (lexemes_of c.text.now c.tokens.now) };
}

impl<'a> Cursor<'a> {
    /// Before all tokens of a text.
    pub fn new(text: &'a [u8], tokens: &'a [Token]) -> Cursor<'a>
        requires spans { All (Lies text.now) tokens.now }
        requires real { AreReal (lexemes_of text.now tokens.now) }
        ensures { result ≡ lexemes_of text.now tokens.now }
    {
        Cursor {
            text,
            tokens,
            at: 0,
        }
    }

    /// How many tokens are left.
    pub fn left(&self) -> usize
        ensures { result ≡ length self.now }
    {
        self.tokens.len() - self.at
    }

    /// The next token, or None at the end.
    pub fn next(&self) -> Option<Seen<'a>>
        ensures seen { MatchOption result (self.now ≡ [])
            (λ s. self.now ≡ lexeme_seen s ∷ drop 1 self.now) }
        ensures real { MatchOption result (Unit {0}) (λ s. is_real (lexeme_seen s) ≡ true) }
    {
        if self.at < self.tokens.len() {
            Some(seen_of(self.text, self.tokens[self.at]))
        } else {
            None
        }
    }

    /// Goes past the next token.
    fn advance(&mut self)
        requires { self.old ≢ [] }
        ensures { self.new ≡ drop 1 self.old }
    {
        self.at += 1;
    }

    /// The line of the next token, 0 at the end.
    pub fn line(&self) -> u32
        ensures { result ≡ line_of self.now }
    {
        match self.next() {
            Some(seen) => seen.line,
            None => 0,
        }
    }

    /// Whether the next token is this word or sign.
    pub fn is(&self, word: &[u8]) -> bool
        ensures { result ≡ starts (fixed word.now) self.now }
    {
        match self.next() {
            Some(seen) => seen.is(word),
            None => false,
        }
    }

    /// Whether there is a next token that is not this word or sign.
    pub fn is_other(&self, word: &[u8]) -> bool
        ensures { result ≡ starts (other word.now) self.now }
    {
        match self.next() {
            Some(seen) => !seen.is(word),
            None => false,
        }
    }

    /// Whether the next token is a name.
    pub fn is_name(&self) -> bool
        ensures { result ≡ starts name_class self.now }
    {
        match self.next() {
            Some(seen) => seen.kind == TokenKind::Name,
            None => false,
        }
    }

    /// Whether the next token is this name.
    pub fn is_named(&self, name: &[u8]) -> bool
        ensures { result ≡ starts (named name.now) self.now }
    {
        match self.next() {
            Some(seen) => seen.kind == TokenKind::Name && seen.bytes == name,
            None => false,
        }
    }

    /// Whether the next token is a text in quotes.
    pub fn is_text(&self) -> bool
        ensures { result ≡ starts text_class self.now }
    {
        match self.next() {
            Some(seen) => seen.kind == TokenKind::Text,
            None => false,
        }
    }

    /// The number that the next token is, if it is one.
    fn value(&self) -> Option<u64>
        ensures { result ≡ value_at self.now }
    {
        let seen = self.next()?;
        if seen.kind == TokenKind::Number {
            Some(number_of(seen.bytes))
        } else {
            None
        }
    }

    /// Whether the next token is a number from `low` to `high`.
    pub fn is_number(&self, low: u64, high: u64) -> bool
        ensures { result ≡ starts (number_class low high) self.now }
    {
        match self.value() {
            Some(value) => low <= value && value <= high,
            None => false,
        }
    }

    /// Takes this word or sign.
    ///
    /// # Errors
    ///
    /// `Syntax`: the next token is another one, or none is left. The cursor stays where it was.
    pub fn expect(&mut self, word: &[u8]) -> Result<(), Halt>
        ensures read { Gives result self.new (word_at word.now self.old) }
        ensures memory { NeedsNoMemory result }
    {
        if self.is(word) {
            self.advance();
            Ok(())
        } else {
            Err(Halt::Syntax)
        }
    }

    /// Takes this name.
    ///
    /// # Errors
    ///
    /// `Syntax`: the next token is another one, or none is left. The cursor stays where it was.
    pub fn expect_named(&mut self, name: &[u8]) -> Result<(), Halt>
        ensures read { Gives result self.new (named_at name.now self.old) }
        ensures memory { NeedsNoMemory result }
    {
        if self.is_named(name) {
            self.advance();
            Ok(())
        } else {
            Err(Halt::Syntax)
        }
    }

    /// Takes a name.
    ///
    /// # Errors
    ///
    /// `Syntax`: the next token is no name, or none is left. `NoMemory`: out of memory for the
    /// name's bytes. The cursor stays where it was.
    pub fn name(&mut self, alloc: Global) -> Result<Bytes, Halt>
        ensures read { Gives result self.new (name_at self.old) }
        ensures memory { StaysWithoutMemory result self.old self.new }
    {
        match self.next() {
            Some(seen) if seen.kind == TokenKind::Name => {
                let name = Bytes::from_slice(alloc, seen.bytes)?;
                self.advance();
                Ok(name)
            }
            _ => Err(Halt::Syntax),
        }
    }

    /// Takes a text in quotes, for the bytes that it stands for.
    ///
    /// # Errors
    ///
    /// `Syntax`: the next token is no text, or none is left. `NoMemory`: out of memory for the
    /// text's bytes. The cursor stays where it was.
    pub fn text(&mut self, alloc: Global) -> Result<Bytes, Halt>
        ensures read { Gives result self.new (text_at self.old) }
        ensures memory { StaysWithoutMemory result self.old self.new }
    {
        match self.next() {
            Some(seen) if seen.kind == TokenKind::Text => {
                let text = text_of(alloc, seen.bytes)?;
                self.advance();
                Ok(text)
            }
            _ => Err(Halt::Syntax),
        }
    }

    /// Takes a number from `low` to `high`.
    ///
    /// # Errors
    ///
    /// `Syntax`: the next token is no such number, or none is left. The cursor stays where it was.
    pub fn number(&mut self, low: u64, high: u64) -> Result<u64, Halt>
        ensures read { Gives result self.new (number_at low high self.old) }
        ensures range { IfOk result (λ n. (low ≤ n) × (n ≤ high)) }
        ensures memory { NeedsNoMemory result }
    {
        match self.value() {
            Some(value) if low <= value && value <= high => {
                self.advance();
                Ok(value)
            }
            _ => Err(Halt::Syntax),
        }
    }
}

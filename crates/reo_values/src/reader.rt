//! What is left of a text while it is read.
ghost use Rattle.std.specs.Prelude.{◌≡◌, ◌≢◌, ◌==◌, ◌++◌, ◌∷◌, [], ◌≤◌, ℕ, List, length, take, drop, OnOk, IfErr, IsErrOf, MatchOption};
ghost use Rattle.std.specs.List.{All};
ghost use Rattle.reo_values.specs.Reading.{IsEnd, IsWord, Ends};

use crate::ReadFault;
use std::marker::Model;

/// A text and how far it was read. Contracts see the bytes that are left.
#[derive(Drop)]
pub struct Reader<'a> {
    text: &'a [u8],
    at: usize,
}

impl<'a> Model for Reader<'a> {
    ghost use Rattle.std.specs.Prelude.{List, ℕ, drop, length, ◌≤◌};

    ghost Value = { List ℕ };

    ghost view = { λ r. drop r.at r.text.now };

    ghost invariant = { λ r. r.at ≤ length r.text.now };
}

fn word_length(text: &[u8]) -> usize
    ensures within { result ≤ length text.now }
    ensures word { IsWord (take result text.now) }
    ensures ends { Ends (drop result text.now) }
{
    for (at, byte) in text.iter().enumerate() {
        if *byte == b',' || *byte == b')' {
            return at;
        }
    }
    text.len()
}

impl<'a> Reader<'a> {
    /// The whole text is left.
    pub fn new(text: &'a [u8]) -> Reader<'a>
        ensures { result ≡ text.now }
    {
        Reader { text, at: 0 }
    }

    /// Whether nothing is left.
    pub fn is_done(&self) -> bool
        ensures { result ≡ (length self.now == 0) }
    {
        self.at == self.text.len()
    }

    /// Takes the next byte, or answers None where nothing is left.
    pub fn next(&mut self) -> Option<u8>
        ensures { MatchOption result ((self.old ≡ []) × (self.new ≡ []))
            (λ byte. self.old ≡ byte ∷ self.new) }
    {
        if self.at == self.text.len() {
            return None;
        }
        let byte = self.text[self.at];
        self.at += 1;
        Some(byte)
    }

    /// Takes this byte, or fails where another or none is next.
    pub fn expect(&mut self, byte: u8) -> Result<(), ReadFault>
        ensures found { OnOk result (self.old ≡ byte ∷ self.new) }
        ensures none { IsErrOf result ReadFault.NotALiteral → (rest : List ℕ)
            → self.old ≢ byte ∷ rest }
        ensures fault { IfErr result (λ fault. fault ≡ ReadFault.NotALiteral) }
    {
        match self.next() {
            Some(found) if found == byte => Ok(()),
            _ => Err(ReadFault::NotALiteral),
        }
    }

    /// Takes all before the next comma or closing parenthesis.
    pub fn word(&mut self) -> &'a [u8]
        ensures all { self.old ≡ result.now ++ self.new }
        ensures word { IsWord result.now }
        ensures ends { Ends self.new }
    {
        let left = &self.text[self.at..];
        let count = word_length(left);
        self.at += count;
        &left[..count]
    }
}

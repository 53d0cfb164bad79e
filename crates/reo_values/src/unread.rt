//! What is left of a text while it is read.
ghost use Rattle.std.specs.Prelude.{◌≡◌, ◌≢◌, ◌==◌, ◌++◌, ◌≤◌, ℕ, List, length, take, drop, true, false};

use std::marker::Model;

/// What is left of a text. Contracts see its bytes.
#[derive(Drop)]
pub struct Unread<'a> {
    left: &'a [u8],
}

impl<'a> Model for Unread<'a> {
    ghost use Rattle.std.specs.Prelude.{List, ℕ};

    ghost Value = { List ℕ };

    ghost view = { λ r. r.left.now };
}

impl<'a> Unread<'a> {
    /// The whole text is left.
    pub fn new(text: &'a [u8]) -> Unread<'a>
        ensures { result ≡ text.now }
    {
        Unread { left: text }
    }

    /// The bytes that are left.
    pub fn left(&self) -> &'a [u8]
        ensures { result.now ≡ self.now }
    {
        self.left
    }

    /// Whether nothing is left.
    pub fn is_done(&self) -> bool
        ensures { result ≡ (length self.now == 0) }
    {
        self.left.is_empty()
    }

    /// Takes so many bytes.
    pub fn take(&mut self, count: usize) -> &'a [u8]
        requires { count ≤ length self.old }
        ensures taken { result.now ≡ take count self.old }
        ensures left { self.new ≡ drop count self.old }
    {
        let left = self.left;
        self.left = &left[count..];
        &left[..count]
    }

    /// Takes this word where it is next, and else nothing.
    pub fn word(&mut self, word: &[u8]) -> bool
        ensures taken { result ≡ true → self.old ≡ word.now ++ self.new }
        ensures stays { result ≡ false → self.new ≡ self.old }
        ensures none { result ≡ false → (rest : List ℕ) → self.old ≢ word.now ++ rest }
    {
        match self.left.strip_prefix(word) {
            Some(left) => {
                self.left = left;
                true
            }
            None => false,
        }
    }

    /// Takes these two words where they are next, and else nothing.
    pub fn words(&mut self, first: &[u8], second: &[u8]) -> bool
        ensures taken { result ≡ true → self.old ≡ first.now ++ (second.now ++ self.new) }
        ensures stays { result ≡ false → self.new ≡ self.old }
        ensures none { result ≡ false → (rest : List ℕ)
            → self.old ≢ first.now ++ (second.now ++ rest) }
    {
        let mut ahead = Unread::new(self.left);
        if ahead.word(first) && ahead.word(second) {
            self.left = ahead.left;
            true
        } else {
            false
        }
    }
}

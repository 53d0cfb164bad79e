//! What is left of a proof text while it is read.
ghost use Rattle.std.specs.Prelude.{◌≡◌, ◌==◌, ◌≤◌, ◌<◌, List, ℕ, length, take, drop, slice_index, MatchOption};
ghost use Rattle.std.specs.List.{All};
ghost use Rattle.reo_proof_texts.specs.Cuts.{IsInLine};
ghost use Rattle.reo_proof_reader.specs.Reads.{IsFeedAt, IsLineTaken};

use std::marker::Model;

/// What is left of a proof text. Contracts see its bytes.
#[derive(Drop)]
pub struct ProofReader<'a> {
    left: &'a [u8],
}

impl<'a> Model for ProofReader<'a> {
    ghost use Rattle.std.specs.Prelude.{List, ℕ};

    ghost Value = { List ℕ };

    ghost view = { λ r. r.left.now };
}

/// Where the first line feed stands.
fn feed_at(text: &[u8]) -> Option<usize>
    ensures { MatchOption result (All IsInLine text.now) (IsFeedAt text.now) }
{
    for (at, byte) in text.iter().enumerate() {
        if *byte == b'\n' {
            return Some(at);
        }
    }
    None
}

impl<'a> ProofReader<'a> {
    /// The whole text is left.
    pub fn new(text: &'a [u8]) -> ProofReader<'a>
        ensures { result ≡ text.now }
    {
        ProofReader { left: text }
    }

    /// The bytes that are left.
    pub(crate) fn left(&self) -> &'a [u8]
        ensures { result.now ≡ self.now }
    {
        self.left
    }

    /// Whether nothing is left.
    pub fn is_done(&self) -> bool
        ensures { result ≡ (length self.now == 0) }
    {
        self.left.is_empty()
    }

    /// Takes a line that ends with a line feed, and gives it without that; or there is none.
    pub(crate) fn line(&mut self) -> Option<&'a [u8]>
        ensures { MatchOption result (All IsInLine self.old × (self.new ≡ self.old))
            (λ line. IsLineTaken self.old self.new line.now) }
    {
        let left = self.left;
        match feed_at(left) {
            None => None,
            Some(at) => {
                self.left = &left[at + 1..];
                Some(&left[..at])
            }
        }
    }
}

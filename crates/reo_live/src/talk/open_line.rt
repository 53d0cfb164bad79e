//! The line that has not ended yet.
ghost use Rattle.std.specs.Prelude.{◌≡◌, ◌↔◌, ◌≤◌, [], IsTrue, OnOk, MatchOption, IfSome, length};
ghost use Rattle.reo_live.specs.base.Held.{Held, short, long, joined};

use reo_values::{Bytes, NoMemory};
use std::alloc::Global;
use std::marker::Model;

/// The most bytes of a line.
pub(crate) const MOST_BYTES: usize = 65536;

/// The bytes of a line so far; where they are too many, that alone.
#[derive(Drop)]
pub(crate) struct OpenLine {
    bytes: Bytes,
    is_long: bool,
}

impl Model for OpenLine {
    ghost use Rattle.std.specs.Prelude.{◌≤◌, cond, length};
    ghost use Rattle.reo_live.specs.base.Held.{Held, short, long};

    ghost Value = { Held };

    ghost view = { λ line. cond line.is_long long (short line.bytes) };

    ghost invariant = { λ line. length line.bytes ≤ 65536 };
}

impl OpenLine {
    /// No bytes. This takes no memory.
    pub(crate) fn new(alloc: Global) -> Self
        ensures { result ≡ short [] }
    {
        OpenLine {
            bytes: Bytes::new(alloc),
            is_long: false,
        }
    }

    /// Adds bytes. `NoMemory` is out of memory.
    pub(crate) fn join(&mut self, more: &[u8]) -> Result<(), NoMemory>
        ensures { OnOk result (self.new ≡ joined self.old more.now) }
    {
        if self.is_long {
            return Ok(());
        }
        if more.len() > MOST_BYTES - self.bytes.len() {
            self.is_long = true;
            return Ok(());
        }
        self.bytes.append(more)
    }

    /// Takes all bytes out.
    pub(crate) fn clear(&mut self)
        ensures { self.new ≡ short [] }
    {
        self.bytes.clear();
        self.is_long = false;
    }

    /// The bytes, unless they are too many.
    pub(crate) fn bytes(&self) -> Option<&[u8]>
        ensures held { MatchOption result (self.now ≡ long) (λ bytes. self.now ≡ short bytes.now) }
        ensures few { IfSome result (λ bytes. length bytes.now ≤ 65536) }
    {
        if self.is_long {
            None
        } else {
            Some(self.bytes.as_slice())
        }
    }

    /// Whether there is no byte.
    pub(crate) fn is_empty(&self) -> bool
        ensures { IsTrue result ↔ self.now ≡ short [] }
    {
        !self.is_long && self.bytes.is_empty()
    }
}

//! Bytes in memory, of which a front was taken.
ghost use Rattle.std.specs.Prelude.{◌≡◌, ◌<◌, ◌≤◌, ◌++◌, [], length, drop, min, take};

use reo_values::Bytes;
use std::marker::Model;

/// Bytes from a place on.
#[derive(Drop)]
pub(crate) struct Remaining {
    bytes: Bytes,
    at: usize,
}

impl Model for Remaining {
    ghost use Rattle.std.specs.Prelude.{◌≤◌, List, ℕ, drop, length};

    ghost Value = { List ℕ };

    ghost view = { λ r. drop r.at r.bytes };

    ghost invariant = { λ r. r.at ≤ length r.bytes };
}

impl Remaining {
    /// All of these bytes.
    pub(crate) fn new(bytes: Bytes) -> Self
        ensures { result ≡ bytes }
    {
        Remaining { bytes, at: 0 }
    }

    /// The bytes left.
    pub(crate) fn left(&self) -> &[u8]
        ensures { result.now ≡ self.now }
    {
        &self.bytes.as_slice()[self.at..]
    }

    /// Moves the next bytes to the front of the room, at most `most`.
    pub(crate) fn move_to(&mut self, room: &mut [u8], most: usize) -> usize
        ensures count { result ≡ min (length self.old) (min (length room.old) most) }
        ensures bytes { self.old ≡ take result room.new ++ self.new }
    {
        let left = &self.bytes.as_slice()[self.at..];
        let count = left.len().min(room.len().min(most));
        room[..count].copy_from_slice(&left[..count]);
        self.at += count;
        count
    }
}

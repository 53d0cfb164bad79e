//! How much an expansion may still copy and look up.
ghost use Rattle.std.specs.Prelude.{◌≡◌, ◌+◌, ◌<◌, OnOk, OnErr};

use reo_values::NoMemory;

/// The bytes of trees and names that one expansion copies and looks up at most: 2^26.
const MOST_BYTES: u64 = 67_108_864;

/// What a name takes beside its bytes.
const NAME: u64 = 64;

/// What a look at a unit of an index takes.
const UNIT: u64 = 4;

/// How many bytes may still be copied or looked up.
#[derive(Drop)]
pub struct Room {
    pub left: u64,
}

impl Room {
    /// The room of one expansion.
    pub fn new() -> Room
        ensures { result.left ≡ MOST_BYTES }
    {
        Room { left: MOST_BYTES }
    }

    /// So many bytes fewer. `NoMemory` exactly where fewer are left, and then all stay.
    pub fn take(&mut self, bytes: u64) -> Result<(), NoMemory>
        ensures taken { OnOk result (self.new.left + bytes ≡ self.old.left) }
        ensures short { OnErr result (self.old.left < bytes) }
        ensures same { OnErr result (self.new.left ≡ self.old.left) }
    {
        if self.left < bytes {
            return Err(NoMemory);
        }
        self.left -= bytes;
        Ok(())
    }

    /// The bytes of a copy of a name fewer. `NoMemory` where fewer are left.
    pub fn take_name(&mut self, name: &[u8]) -> Result<(), NoMemory> {
        self.take(NAME.saturating_add(name.len() as u64))
    }

    /// The bytes of a look at a unit fewer, whose text is so long. `NoMemory` where fewer are left.
    pub fn take_unit(&mut self, length: usize) -> Result<(), NoMemory> {
        self.take(UNIT.saturating_add(length as u64))
    }
}

//! Bytes that contracts see as a plain list of numbers.
ghost use Rattle.std.specs.Prelude.{◌≡◌, ◌==◌, [], ◌∷◌, ◌++◌, length, take, OnOk, OnErr, IfOk, List, ℕ};

use crate::NoMemory;
use std::alloc::Global;
use std::marker::Model;

/// A growing list of bytes. A growth that finds no memory answers `NoMemory` and leaves the
/// bytes as they were.
#[derive(Drop)]
pub struct Bytes {
    vec: Vec<u8>,
}

impl Model for Bytes {
    ghost Value = { List ℕ };

    ghost view = { λ b. b.vec.items };
}

impl Bytes {
    /// No bytes. This takes no memory.
    pub fn new(alloc: Global) -> Self
        ensures { result ≡ [] }
    {
        Bytes {
            vec: Vec::new(alloc),
        }
    }

    /// The bytes of a vector, which is not copied.
    pub fn from_vec(vec: Vec<u8>) -> Self
        ensures { result ≡ vec.items }
    {
        Bytes { vec }
    }

    /// The vector of these bytes, which is not copied.
    pub fn into_vec(self) -> Vec<u8>
        ensures { result.items ≡ self }
    {
        self.vec
    }

    /// A copy of the bytes of a slice. `NoMemory` means out of memory.
    pub fn from_slice(alloc: Global, bytes: &[u8]) -> Result<Self, NoMemory>
        ensures { IfOk result (λ b. b ≡ bytes.now) }
    {
        match Vec::from_slice(alloc, bytes) {
            Ok(vec) => Ok(Bytes { vec }),
            Err(_) => Err(NoMemory),
        }
    }

    /// How many bytes there are.
    pub fn len(&self) -> usize
        ensures { result ≡ length self.now }
    {
        self.vec.len()
    }

    /// Whether there is no byte.
    pub fn is_empty(&self) -> bool
        ensures { result ≡ (length self.now == 0) }
    {
        self.vec.is_empty()
    }

    /// All bytes, in order.
    pub fn as_slice(&self) -> &[u8]
        ensures { result.now ≡ self.now }
    {
        &self.vec
    }

    /// One byte at the end.
    pub fn push(&mut self, byte: u8) -> Result<(), NoMemory>
        ensures ok { OnOk result (self.new ≡ self.old ++ byte ∷ []) }
        ensures err { OnErr result (self.new ≡ self.old) }
    {
        match self.vec.push(byte) {
            Ok(()) => Ok(()),
            Err(_) => Err(NoMemory),
        }
    }

    /// All these bytes at the end, or none of them.
    pub fn append(&mut self, bytes: &[u8]) -> Result<(), NoMemory>
        ensures ok { OnOk result (self.new ≡ self.old ++ bytes.now) }
        ensures err { OnErr result (self.new ≡ self.old) }
    {
        match self.vec.extend_from_slice(bytes) {
            Ok(()) => Ok(()),
            Err(_) => Err(NoMemory),
        }
    }

    /// Takes out all bytes past the first `count`.
    pub fn truncate(&mut self, count: usize)
        ensures { self.new ≡ take count self.old }
    {
        self.vec.truncate(count);
    }

    /// Takes all bytes out.
    pub fn clear(&mut self)
        ensures { self.new ≡ [] }
    {
        self.vec.clear();
    }

    /// Equal bytes. `NoMemory` means out of memory.
    pub fn copy(&self, alloc: Global) -> Result<Bytes, NoMemory>
        ensures { IfOk result (λ b. b ≡ self.now) }
    {
        Bytes::from_slice(alloc, self.as_slice())
    }
}

//! What can be copied whole.
ghost use Rattle.std.specs.Prelude.{◌≡◌, IfOk};

use crate::{Bytes, Kindred, List, NoMemory, Value, copy, copy_kindred};
use std::alloc::Global;

/// What can be copied whole: contracts see the copy as the same value.
pub trait Copies: Drop {
    /// An equal value. `NoMemory` means out of memory.
    fn copied(&self, alloc: Global) -> Result<Self, NoMemory>
        ensures { IfOk result (λ made. made ≡ self.now) };
}

impl Copies for u8 {
    fn copied(&self, _alloc: Global) -> Result<Self, NoMemory> {
        Ok(*self)
    }
}

impl Copies for u32 {
    fn copied(&self, _alloc: Global) -> Result<Self, NoMemory> {
        Ok(*self)
    }
}

impl Copies for u64 {
    fn copied(&self, _alloc: Global) -> Result<Self, NoMemory> {
        Ok(*self)
    }
}

impl Copies for usize {
    fn copied(&self, _alloc: Global) -> Result<Self, NoMemory> {
        Ok(*self)
    }
}

impl Copies for bool {
    fn copied(&self, _alloc: Global) -> Result<Self, NoMemory> {
        Ok(*self)
    }
}

impl Copies for Bytes {
    fn copied(&self, alloc: Global) -> Result<Self, NoMemory> {
        self.copy(alloc)
    }
}

impl Copies for Value {
    fn copied(&self, _alloc: Global) -> Result<Self, NoMemory> {
        copy(self)
    }
}

impl Copies for Kindred {
    fn copied(&self, _alloc: Global) -> Result<Self, NoMemory> {
        copy_kindred(self)
    }
}

impl<T: Copies> Copies for Option<T> {
    fn copied(&self, alloc: Global) -> Result<Self, NoMemory> {
        match self {
            Some(item) => Ok(Some(item.copied(alloc)?)),
            None => Ok(None),
        }
    }
}

impl<T: Copies> Copies for List<T> {
    fn copied(&self, alloc: Global) -> Result<Self, NoMemory> {
        let mut made = List::new(alloc);
        for item in self.as_slice() {
            made.push(item.copied(alloc)?)?;
        }
        Ok(made)
    }
}

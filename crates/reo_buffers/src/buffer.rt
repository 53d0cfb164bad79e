//! A buffer over a ring.
ghost use Rattle.std.specs.Prelude.{◌≡◌, ◌+◌, ◌<◌, ◌≤◌, [], ◌∷◌, ◌++◌, length, slice_get, Some, IfOk, option_copied, false};
ghost use Rattle.circular_buffer.specs.Buffer.{buffer};
ghost use Rattle.reo_buffers.specs.Stored.{IsBuffer, stored, is_empty, is_full, with_back, without_front};

use circular_buffer::HeapCircularBuffer;
use reo_values::{List, NoMemory, Value};
use std::alloc::Global;
use std::marker::Model;

/// A buffer of 1 to 1,024 items, from which the item that came first is taken first.
///
/// Contracts see its items, from the front to the back, and its size: how many there may be.
#[derive(Drop)]
pub struct Buffer {
    ring: HeapCircularBuffer<Value>,
}

impl Model for Buffer {
    ghost use Rattle.reo_buffers.specs.Stored.{Stored, stored, stored_code, IsBuffer};
    ghost use Rattle.reo_values.specs.contracts.value.Value as item;

    ghost Value = { Stored };

    ghost coded = { stored_code item.the_row.coded };

    ghost view = { λ b. stored b.ring.capacity b.ring.items };

    ghost invariant = { λ b. IsBuffer (stored b.ring.capacity b.ring.items) };
}

/// An empty ring with room for so many items. `NoMemory`: out of memory.
fn ring_of(alloc: Global, size: usize) -> Result<HeapCircularBuffer<Value>, NoMemory>
    ensures { IfOk result (λ ring. ring ≡ buffer [] size) }
{
    match HeapCircularBuffer::with_capacity(alloc, size) {
        Ok(ring) => Ok(ring),
        Err(_) => Err(NoMemory),
    }
}

/// Puts an item at the back of a ring that has room for it.
fn put_back(ring: &mut HeapCircularBuffer<Value>, item: Value)
    requires { length ring.old.items < ring.old.capacity }
    ensures { ring.new ≡ buffer (ring.old.items ++ item ∷ []) ring.old.capacity }
{
    match ring.try_push_back(item) {
        Ok(()) => {}
        Err(_) => unreachable!(),
    }
}

/// Puts the items at the back of a ring that has room for them.
fn put_all(ring: &mut HeapCircularBuffer<Value>, items: List<Value>)
    requires { length ring.old.items + length items ≤ ring.old.capacity }
    ensures { ring.new ≡ buffer (ring.old.items ++ items) ring.old.capacity }
{
    for item in items.into_vec() {
        put_back(ring, item);
    }
}

impl Buffer {
    /// An empty buffer of this size, which is 1 to 1,024. `NoMemory`: out of memory.
    pub fn new(alloc: Global, size: usize) -> Result<Self, NoMemory>
        requires some { 1 ≤ size }
        requires few { size ≤ 1024 }
        ensures { IfOk result (λ b. b ≡ stored size []) }
    {
        let ring = ring_of(alloc, size)?;
        Ok(Buffer { ring })
    }

    /// A buffer of this size, which is 1 to 1,024, with these items, of which there are at most
    /// so many. The first is the front. `NoMemory`: out of memory.
    pub fn with(alloc: Global, size: usize, items: List<Value>) -> Result<Self, NoMemory>
        requires some { 1 ≤ size }
        requires few { size ≤ 1024 }
        requires fits { length items ≤ size }
        ensures { IfOk result (λ b. b ≡ stored size items) }
    {
        let mut ring = ring_of(alloc, size)?;
        put_all(&mut ring, items);
        Ok(Buffer { ring })
    }

    /// What holds of every buffer: its size is 1 to 1,024, and it has at most so many items.
    pub fn known(&self)
        ensures { IsBuffer self.now }
    {
        let _ = &self.ring;
    }

    /// How many items there are.
    pub fn len(&self) -> usize
        ensures { result ≡ length self.now.items }
    {
        self.ring.len()
    }

    /// How many items there may be: 1 to 1,024.
    pub fn size(&self) -> usize
        ensures size { result ≡ self.now.size }
        ensures some { 1 ≤ result }
        ensures few { result ≤ 1024 }
    {
        self.ring.capacity()
    }

    /// Whether there is no item.
    pub fn is_empty(&self) -> bool
        ensures { result ≡ is_empty self.now }
    {
        self.len() == 0
    }

    /// Whether there are as many items as there may be.
    pub fn is_full(&self) -> bool
        ensures { result ≡ is_full self.now }
    {
        self.size() <= self.len()
    }

    /// The item at the front, or `None` exactly where there is no item.
    pub fn front(&self) -> Option<&Value>
        ensures { option_copied result ≡ slice_get self.now.items 0 }
    {
        self.ring.front()
    }

    /// Puts an item at the back of a buffer that is not full. This takes no memory, and drops
    /// nothing.
    pub fn put(&mut self, item: Value)
        requires { is_full self.old ≡ false }
        ensures { self.new ≡ with_back item self.old }
    {
        put_back(&mut self.ring, item);
    }

    /// Takes the item at the front out of a buffer that is not empty. This takes no memory.
    pub fn take(&mut self) -> Value
        requires { is_empty self.old ≡ false }
        ensures front { slice_get self.old.items 0 ≡ Some result }
        ensures rest { self.new ≡ without_front self.old }
    {
        match self.ring.pop_front() {
            Some(item) => item,
            None => unreachable!(),
        }
    }

    /// The ring that holds the items: they stand in it from the front to the back, and the size
    /// is its capacity.
    pub fn ring(&self) -> &HeapCircularBuffer<Value>
        ensures { result.now ≡ buffer self.now.items self.now.size }
    {
        &self.ring
    }
}

//! Sources and sinks in memory.
use reo_io::{MemorySink, MemorySource};
use reo_values::{Bytes, List, NoMemory};
use std::alloc::Global;

/// A call alone.
fn calls(alloc: Global, number: u64) -> Result<List<u64>, NoMemory> {
    let mut calls = List::new(alloc);
    calls.push(number)?;
    Ok(calls)
}

/// A source of these bytes, so many a call, of which the call with this number fails.
pub fn source_of(
    alloc: Global,
    bytes: &[u8],
    piece: usize,
    failing: u64,
) -> Result<MemorySource, NoMemory> {
    let bytes = Bytes::from_slice(alloc, bytes)?;
    MemorySource::new(alloc, bytes, piece.max(1), calls(alloc, failing)?)
}

/// A sink with this room, which takes so many bytes a call, and of which the call with this number
/// fails.
pub fn sink_of(
    alloc: Global,
    room: usize,
    piece: usize,
    failing: u64,
) -> Result<MemorySink, NoMemory> {
    MemorySink::new(alloc, room, piece.max(1), calls(alloc, failing)?)
}

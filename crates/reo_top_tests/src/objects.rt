//! The objects that the command is given.
use reo_io::{MemoryFiles, MemorySink, MemorySource, Named};
use reo_values::{Bytes, List, NoMemory};
use std::alloc::Global;

pub const ONE: &str = "connector main(in a: int 0..9, out b: int 0..9) { sync a b; }";

pub const GIVE: &str = "component p { write a 3; } component q { take b; }";

/// The trace of `GIVE` on `ONE`.
pub const GIVEN: &str = "round 1: a!3 b?3 | 0 0 0\ndone after 1 rounds\n";

/// The proved text of that run: no log has a line.
pub const PROVED: &str = "round 1: a!3 b?3 | 0 0 0\nproved\ndone after 1 rounds\n";

/// The words of a line, with one blank between each two.
pub fn words_of(alloc: Global, line: &str) -> Result<List<Bytes>, NoMemory> {
    let mut words = List::new(alloc);
    for word in line.split(' ') {
        words.push(Bytes::from_slice(alloc, word.as_bytes())?)?;
    }
    Ok(words)
}

fn named(alloc: Global, name: &str, text: &str) -> Result<Named, NoMemory> {
    let name = Bytes::from_slice(alloc, name.as_bytes())?;
    let bytes = Bytes::from_slice(alloc, text.as_bytes())?;
    Ok(Named { name, bytes })
}

/// The files `C` and `S` with these texts.
pub fn both_files(alloc: Global, circuit: &str, script: &str) -> Result<List<Named>, NoMemory> {
    let mut files = List::new(alloc);
    files.push(named(alloc, "C", circuit)?)?;
    files.push(named(alloc, "S", script)?)?;
    Ok(files)
}

fn calls(alloc: Global, failing: u64) -> Result<List<u64>, NoMemory> {
    let mut calls = List::new(alloc);
    calls.push(failing)?;
    Ok(calls)
}

/// The files `C`, `S` and `P` with these texts.
pub fn three_files(
    alloc: Global,
    circuit: &str,
    script: &str,
    proof: &str,
) -> Result<List<Named>, NoMemory> {
    let mut files = both_files(alloc, circuit, script)?;
    files.push(named(alloc, "P", proof)?)?;
    Ok(files)
}

/// The files `C` and `S` with these texts, and `P` with that of `PROVED`, of which the fetch with
/// this number fails.
pub fn memory_files(
    alloc: Global,
    circuit: &str,
    script: &str,
    failing: u64,
) -> Result<MemoryFiles, NoMemory> {
    MemoryFiles::new(
        alloc,
        three_files(alloc, circuit, script, PROVED)?,
        calls(alloc, failing)?,
    )
}

/// A sink with this room, which takes so many bytes a call, and of which the call with this number
/// fails.
pub fn memory_sink(
    alloc: Global,
    room: usize,
    piece: usize,
    failing: u64,
) -> Result<MemorySink, NoMemory> {
    MemorySink::new(alloc, room, piece.max(1), calls(alloc, failing)?)
}

/// A source with these events, which gives a byte a call, and of which the call with this number
/// fails.
pub fn memory_source(alloc: Global, events: &str, failing: u64) -> Result<MemorySource, NoMemory> {
    let bytes = Bytes::from_slice(alloc, events.as_bytes())?;
    MemorySource::new(alloc, bytes, 1, calls(alloc, failing)?)
}

/// A source with nothing in it.
pub fn empty_source(alloc: Global) -> Result<MemorySource, NoMemory> {
    MemorySource::new(alloc, Bytes::new(alloc), 1, List::new(alloc))
}

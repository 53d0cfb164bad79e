//! Sources in memory, and sure ones.
use crate::checks::is;
use crate::puts::calls;
use reo_io::{MemorySource, Source, SourceFault, SureSource};
use reo_values::{Bytes, NoMemory};
use std::alloc::Global;
use std::test::Fail;

/// Adds what one take of at most two bytes gives, and a bar, or `!` where the source failed.
fn add_take<S: Source>(source: &mut S, said: &mut Bytes) -> Result<(), NoMemory> {
    let mut room = [0; 2];
    match source.take(&mut room) {
        Ok(count) => {
            said.append(&room[..count])?;
            said.push(b'|')
        }
        Err(SourceFault::Failed) => said.push(b'!'),
    }
}

/// Five takes, one after another.
pub fn five_takes<S: Source>(alloc: Global, source: &mut S) -> Result<Bytes, NoMemory> {
    let mut said = Bytes::new(alloc);
    for _ in 0..5 {
        add_take(source, &mut said)?;
    }
    Ok(said)
}

/// The most bytes of a call, the calls that fail, and what `five_takes` says of `abc`.
const SOURCES: &[(usize, u64, u64, &str)] = &[
    (1, 0, 0, "a|b|c|||"),
    (1, 1, 0, "!a|b|c||"),
    (1, 2, 0, "a|!b|c||"),
    (1, 4, 5, "a|b|c|!!"),
    (9, 0, 0, "ab|c||||"),
    (2, 1, 3, "!ab|!c||"),
];

fn abc(alloc: Global) -> Result<Bytes, NoMemory> {
    Bytes::from_slice(alloc, b"abc")
}

fn memory_source(
    alloc: Global,
    piece: usize,
    first: u64,
    second: u64,
) -> Result<MemorySource, NoMemory> {
    let failing = calls(alloc, first, second)?;
    MemorySource::new(alloc, abc(alloc)?, piece.max(1), failing)
}

fn source_says(
    alloc: Global,
    piece: usize,
    first: u64,
    second: u64,
    said: &str,
) -> Result<bool, NoMemory> {
    let mut source = memory_source(alloc, piece, first, second)?;
    let gives = five_takes(alloc, &mut source)?.as_slice() == said.as_bytes();
    Ok(gives && source.left().is_empty())
}

#[test]
fn a_memory_source_gives_pieces(rt: HostRuntime) -> Result<(), Fail> {
    let alloc = rt.alloc();
    for (piece, first, second, said) in SOURCES {
        is(
            &rt,
            source_says(alloc, *piece, *first, *second, said)?,
            said,
        );
    }
    Ok(())
}

fn gives_all(alloc: Global) -> Result<bool, NoMemory> {
    let mut source = SureSource::new(alloc, abc(alloc)?)?;
    let before = source.left() == b"abc".as_slice();
    Ok(before && five_takes(alloc, &mut source)?.as_slice() == b"ab|c||||".as_slice())
}

#[test]
fn a_sure_source_gives_all(rt: HostRuntime) -> Result<(), Fail> {
    is(&rt, gives_all(rt.alloc())?, "sure");
    Ok(())
}

//! Sinks: in memory, sure ones, and one that keeps nothing.
ghost use Rattle.std.specs.Prelude.{IsOk};

use crate::checks::is;
use reo_io::{MemorySink, NullSink, Sink, SinkFault, SureSink, put_all};
use reo_values::{Bytes, List, NoMemory};
use std::alloc::Global;
use std::test::Fail;

/// The numbers of the calls that fail.
pub fn calls(alloc: Global, first: u64, second: u64) -> Result<List<u64>, NoMemory> {
    let mut list = List::new(alloc);
    list.push(first)?;
    list.push(second)?;
    Ok(list)
}

/// Puts a piece, and answers `.` or, where the sink failed, `!`.
pub fn mark_of_put<S: Sink>(piece: &[u8], sink: &mut S) -> u8 {
    match put_all(piece, sink) {
        Ok(()) => b'.',
        Err(SinkFault::Failed) => b'!',
    }
}

/// The marks of putting `abcd` and then `z`, and then the bytes kept.
fn two_puts(alloc: Global, sink: &mut MemorySink) -> Result<Bytes, NoMemory> {
    let mut said = Bytes::new(alloc);
    said.push(mark_of_put(b"abcd", sink))?;
    said.push(mark_of_put(b"z", sink))?;
    said.append(sink.bytes())?;
    Ok(said)
}

/// The room, the most bytes of a call, the call that fails, and what `two_puts` says.
const SINKS: &[(usize, usize, u64, &str)] = &[
    (9, 1, 0, "..abcdz"),
    (9, 1, 1, "!.z"),
    (9, 1, 2, "!.az"),
    (9, 1, 4, "!.abcz"),
    (9, 1, 5, ".!abcd"),
    (9, 3, 2, "!.abcz"),
    (4, 9, 0, ".!abcd"),
    (2, 3, 0, "!!ab"),
];

fn memory_sink(
    alloc: Global,
    room: usize,
    piece: usize,
    failing: u64,
) -> Result<MemorySink, NoMemory> {
    MemorySink::new(alloc, room, piece.max(1), calls(alloc, failing, 0)?)
}

fn sink_says(
    alloc: Global,
    room: usize,
    piece: usize,
    failing: u64,
    said: &str,
) -> Result<bool, NoMemory> {
    let mut sink = memory_sink(alloc, room, piece, failing)?;
    Ok(two_puts(alloc, &mut sink)?.as_slice() == said.as_bytes())
}

#[test]
fn a_memory_sink_takes_pieces(rt: HostRuntime) -> Result<(), Fail> {
    let alloc = rt.alloc();
    for (room, piece, failing, said) in SINKS {
        is(&rt, sink_says(alloc, *room, *piece, *failing, said)?, said);
    }
    Ok(())
}

/// A put of any piece into a sure sink is proved to succeed.
fn put_surely(piece: &[u8], out: &mut SureSink) -> Result<(), SinkFault>
    ensures { IsOk result }
{
    put_all(piece, out)
}

fn keeps_what_it_has_room_for(alloc: Global) -> Result<bool, NoMemory> {
    let mut sink = SureSink::new(alloc, 3)?;
    let all = put_surely(b"ab", &mut sink).is_ok()
        && put_surely(b"cd", &mut sink).is_ok()
        && put_surely(b"e", &mut sink).is_ok();
    Ok(all && sink.bytes() == b"abc".as_slice())
}

#[test]
fn a_sure_sink_keeps_what_it_has_room_for(rt: HostRuntime) -> Result<(), Fail> {
    is(&rt, keeps_what_it_has_room_for(rt.alloc())?, "sure");
    is(&rt, mark_of_put(b"a", &mut NullSink::new()) == b'.', "null");
    Ok(())
}

//! Sinks that fail: each has got a front of the text.
use crate::proving_tests::checks::is;
use crate::proving_tests::works::{HALF, ONE, Work, open_sink, prove_work};
use reo_io::MemorySink;
use reo_trace::WriteFault;
use reo_values::List;
use std::alloc::Global;
use std::test::Fail;

/// A sink that takes so many bytes a call, and of which the call with this number fails.
fn failing_sink(alloc: Global, piece: usize, call: u64) -> Result<MemorySink, Fail> {
    let mut calls = List::new(alloc);
    calls.push(call)?;
    Ok(MemorySink::new(alloc, 1 << 20, piece.max(1), calls)?)
}

/// How many bytes of the text of a work were written, where this call fails, if that is told, and
/// what was written is a front of the text.
fn front_at(
    alloc: Global,
    work: &Work,
    text: &[u8],
    piece: usize,
    call: u64,
) -> Result<Option<usize>, Fail> {
    let mut sink = failing_sink(alloc, piece, call)?;
    let answer = prove_work(alloc, work, &mut sink)?;
    let got = sink.bytes();
    let is_front = text.starts_with(got) && got.len() < text.len();
    let is_told = answer == Some(Err(WriteFault::Failed));
    Ok(if is_front && is_told {
        Some(got.len())
    } else {
        None
    })
}

const TEXT: &str = "round 1: a!3 b?3 | 0 0 0\nproved\ndone after 1 rounds\n";

/// A call that fails, and how many bytes are written before it: the round line, its log with the
/// line `proved`, and the ending are put in one call each.
const PUTS: &[(u64, usize)] = &[(1, 0), (2, 25), (3, 32)];

#[test]
fn sinks_fail_at_each_put(rt: HostRuntime) -> Result<(), Fail> {
    for (call, count) in PUTS {
        let got = front_at(rt.alloc(), &ONE, TEXT.as_bytes(), 99, *call)?;
        is(&rt, got == Some(*count), TEXT);
    }
    Ok(())
}

/// Whether a sink that takes one byte a call has got all bytes before the call that fails, at each
/// call in turn.
fn has_fronts(alloc: Global, text: &[u8]) -> Result<bool, Fail> {
    for at in 0..text.len() {
        if front_at(alloc, &HALF, text, 1, at as u64 + 1)? != Some(at) {
            return Ok(false);
        }
    }
    Ok(true)
}

#[test]
fn sinks_fail_at_each_byte(rt: HostRuntime) -> Result<(), Fail> {
    let mut whole = open_sink(rt.alloc())?;
    let _ending = prove_work(rt.alloc(), &HALF, &mut whole)?;
    is(&rt, 40 < whole.bytes().len(), "long");
    is(&rt, has_fronts(rt.alloc(), whole.bytes())?, "fronts");
    Ok(())
}

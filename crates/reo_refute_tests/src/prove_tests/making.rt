//! Logs that are made.
use crate::prove_tests::circuits::{drained, synced};
use crate::prove_tests::parts::{both, doubled, half_taken, resting};
use crate::prove_tests::writers::merged;
use reo_kinds::Kind;
use reo_net::plain_first;
use reo_net_circuit::{Circuit, ends_of};
use reo_refute::{check_proof, prove};
use reo_refute_parts::item_lists;
use reo_values::{Bytes, NoMemory};
use std::alloc::Global;
use std::process::Abort;
use std::test::Fail;

/// The log that is made for the first round, or no line where some joint has too many items.
fn made(
    rt: &impl Abort,
    alloc: Global,
    circuit: &Circuit<Kind>,
    rows: &[u32],
) -> Result<Bytes, Fail> {
    let first = plain_first(alloc, circuit, 1)?;
    assert!(rt; first.rows.as_slice() == rows);
    let ends = ends_of(alloc, circuit)?;
    match item_lists(alloc, circuit, &ends)? {
        None => {
            assert!(rt; false);
            Ok(Bytes::new(alloc))
        }
        Some(_) => Ok(prove(alloc, circuit, 1, first.rows.as_slice())?),
    }
}

/// The log that is made is right.
fn makes(
    rt: &impl Abort,
    alloc: Global,
    circuit: &Circuit<Kind>,
    rows: &[u32],
) -> Result<(), Fail> {
    let log = made(rt, alloc, circuit, rows)?;
    assert!(rt; check_proof(alloc, circuit, 1, rows, log.as_slice()) == Ok(()));
    Ok(())
}

/// The first port of a drain requires a reason, which the second gives. Of the writers at a merger
/// the first flows, and each other requires a reason, which the merger gives.
#[test]
fn made_logs_are_right(rt: HostRuntime) -> Result<(), Fail> {
    makes(&rt, rt.alloc(), &drained(&rt, rt.alloc())?, &[1, 0, 2])?;
    makes(&rt, rt.alloc(), &merged(&rt, rt.alloc(), 2)?, &[0, 1, 0, 0])?;
    makes(
        &rt,
        rt.alloc(),
        &merged(&rt, rt.alloc(), 3)?,
        &[0, 1, 1, 0, 0],
    )
}

/// Where all flows by the rows 0, no place is live.
#[test]
fn no_place_is_live(rt: HostRuntime) -> Result<(), Fail> {
    let log = made(&rt, rt.alloc(), &synced(&rt, rt.alloc())?, &[0, 0, 0])?;
    assert!(rt; log.as_slice().is_empty());
    Ok(())
}

/// How many lines a text has.
fn count_lines(text: &[u8]) -> usize {
    let mut count: usize = 0;
    for index in 0..text.len() {
        if text[index] == b'\n' {
            count = count.saturating_add(1);
        }
    }
    count
}

/// How many lines the log has that is made for the first round, which is right.
fn lines(rt: &impl Abort, alloc: Global, circuit: &Circuit<Kind>) -> Result<usize, Fail> {
    let first = plain_first(alloc, circuit, 1)?;
    let rows = first.rows.as_slice();
    let ends = ends_of(alloc, circuit)?;
    match item_lists(alloc, circuit, &ends)? {
        None => {
            assert!(rt; false);
            Ok(0)
        }
        Some(_) => {
            let log = prove(alloc, circuit, 1, rows)?;
            assert!(rt; check_proof(alloc, circuit, 1, rows, log.as_slice()) == Ok(()));
            Ok(count_lines(log.as_slice()))
        }
    }
}

/// A part that has nothing to do with a place adds no line to the part of the log for that place:
/// two parts together take the lines of one and those of the other, also where one is split.
#[test]
fn parts_add_their_own_lines(rt: HostRuntime) -> Result<(), Fail> {
    let one = lines(&rt, rt.alloc(), &resting(&rt, rt.alloc())?)?;
    let other = lines(&rt, rt.alloc(), &doubled(&rt, rt.alloc())?)?;
    let together = lines(&rt, rt.alloc(), &both(&rt, rt.alloc())?)?;
    assert!(rt; one > 0 && other > 0);
    assert!(rt; together == one.saturating_add(other));
    Ok(())
}

/// A text without the line of this number, counted from 0.
fn without(alloc: Global, text: &[u8], number: usize) -> Result<Bytes, NoMemory> {
    let mut rest = Bytes::new(alloc);
    let mut line: usize = 0;
    for index in 0..text.len() {
        if line != number {
            rest.push(text[index])?;
        }
        if text[index] == b'\n' {
            line = line.saturating_add(1);
        }
    }
    Ok(rest)
}

/// No line can be left out of the log that is made for these rows of the first round.
fn needs_all(
    rt: &impl Abort,
    alloc: Global,
    circuit: &Circuit<Kind>,
    rows: &[u32],
) -> Result<(), Fail> {
    let log = made(rt, alloc, circuit, rows)?;
    let text = log.as_slice();
    assert!(rt; check_proof(alloc, circuit, 1, rows, text) == Ok(()));
    for number in 0..count_lines(text) {
        let rest = without(alloc, text, number)?;
        assert!(rt; check_proof(alloc, circuit, 1, rows, rest.as_slice()) != Ok(()));
    }
    Ok(())
}

/// A log has no line that it could do without: here the replicator's rows take values away at all
/// three of its joints, and the taker that takes nothing asks for those at its own alone.
#[test]
fn no_line_is_idle(rt: HostRuntime) -> Result<(), Fail> {
    needs_all(
        &rt,
        rt.alloc(),
        &half_taken(&rt, rt.alloc())?,
        &[1, 1, 0, 3],
    )
}

//! Many writers at a merger, each with an item of its own, and a taker at its output.
ghost use Rattle.std.specs.Prelude.{◌≤◌, ◌<◌};

use crate::building::{joint, put_together};
use reo_kinds::{Branches, Kind, TakerPort, WriterPort};
use reo_net_base::Joint;
use reo_net_circuit::Circuit;
use reo_refute::check_proof;
use reo_refute_base::ProofFault;
use reo_values::{Kindred, List, NoMemory, Value};
use std::alloc::Global;
use std::process::Abort;
use std::test::Fail;

/// A writer that offers its number.
fn writer(number: usize) -> Kind
    requires { number ≤ 256 }
{
    Kind::Writer(WriterPort::offering(Kindred::Int(0, 256), Value::Int(number as i64)))
}

/// So many writers, the taker and the merger.
fn primitives(alloc: Global, count: usize) -> Result<List<Kind>, NoMemory>
    requires some { 2 ≤ count }
    requires few { count ≤ 257 }
{
    let mut list = List::new(alloc);
    for number in 0..count {
        list.push(writer(number))?;
    }
    list.push(Kind::Taker(TakerPort { pending: true }))?;
    list.push(Kind::Merger(Branches::new(count)))?;
    Ok(list)
}

/// The joint of each writer, and that of the taker.
fn joints(alloc: Global, count: usize) -> Result<List<Joint>, NoMemory>
    requires { count ≤ 257 }
{
    let merger = count + 1;
    let mut list = List::new(alloc);
    for number in 0..count {
        list.push(joint([number, 0, merger, number]))?;
    }
    list.push(joint([merger, count, count, 0]))?;
    Ok(list)
}

/// So many writers, a taker and a merger.
pub fn merged(rt: &impl Abort, alloc: Global, count: usize) -> Result<Circuit<Kind>, Fail>
    requires some { 2 ≤ count }
    requires few { count ≤ 257 }
{
    let primitives = primitives(alloc, count)?;
    let joints = joints(alloc, count)?;
    put_together(rt, alloc, primitives, count + 1, joints)
}

/// The first writer, the taker and the merger flow by their rows 0. Each other writer requires a
/// reason, by its row 1, and the merger gives it.
fn rows_of(alloc: Global, count: usize) -> Result<Vec<u32>, Fail>
    requires { count ≤ 257 }
{
    let mut rows = Vec::new(alloc);
    rows.push(0)?;
    for _ in 1..count {
        rows.push(1)?;
    }
    rows.push(0)?;
    rows.push(0)?;
    Ok(rows)
}

/// Whether a log without lines for so many writers is refused with this fault.
fn is_refused(rt: &impl Abort, alloc: Global, count: usize, fault: ProofFault) -> Result<bool, Fail>
    requires some { 2 ≤ count }
    requires few { count ≤ 257 }
{
    let circuit = merged(rt, alloc, count)?;
    let rows = rows_of(alloc, count)?;
    Ok(check_proof(alloc, &circuit, 1, &rows, b"") == Err(fault))
}

#[test]
fn more_than_256_items_are_too_many(rt: HostRuntime) -> Result<(), Fail> {
    let most = is_refused(&rt, rt.alloc(), 256, ProofFault::Line { line: 1 })?;
    assert!(rt; most);
    let many = is_refused(&rt, rt.alloc(), 257, ProofFault::Wide)?;
    assert!(rt; many);
    Ok(())
}

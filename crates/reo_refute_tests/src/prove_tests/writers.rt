//! Many writers at a merger, each with an item of its own, and a taker at its output.
ghost use Rattle.std.specs.Prelude.{◌≤◌, ◌<◌};

use crate::prove_tests::building::{joint, put_together};
use reo_kinds::{Branches, Kind, TakerPort, WriterPort};
use reo_net_base::Joint;
use reo_net_circuit::Circuit;
use reo_values::{Kindred, List, NoMemory, Value};
use std::alloc::Global;
use std::process::Abort;
use std::test::Fail;

/// A writer that offers its number.
fn writer(number: usize) -> Kind
    requires { number ≤ 256 }
{
    Kind::Writer(WriterPort::offering(Kindred::Int(0, 256), Value::Int(number as i64)))
}

/// So many writers, the taker and the merger.
fn primitives(alloc: Global, count: usize) -> Result<List<Kind>, NoMemory>
    requires some { 2 ≤ count }
    requires few { count ≤ 257 }
{
    let mut list = List::new(alloc);
    for number in 0..count {
        list.push(writer(number))?;
    }
    list.push(Kind::Taker(TakerPort { pending: true }))?;
    list.push(Kind::Merger(Branches::new(count)))?;
    Ok(list)
}

/// The joint of each writer, and that of the taker.
fn joints(alloc: Global, count: usize) -> Result<List<Joint>, NoMemory>
    requires { count ≤ 257 }
{
    let merger = count + 1;
    let mut list = List::new(alloc);
    for number in 0..count {
        list.push(joint([number, 0, merger, number]))?;
    }
    list.push(joint([merger, count, count, 0]))?;
    Ok(list)
}

/// So many writers, a taker and a merger.
pub fn merged(rt: &impl Abort, alloc: Global, count: usize) -> Result<Circuit<Kind>, Fail>
    requires some { 2 ≤ count }
    requires few { count ≤ 257 }
{
    let primitives = primitives(alloc, count)?;
    let joints = joints(alloc, count)?;
    put_together(rt, alloc, primitives, count + 1, joints)
}

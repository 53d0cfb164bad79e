//! Circuits of two ports.
use crate::prove_tests::building::{joint, put_together};
use reo_kinds::{Kind, TakerPort, WriterPort};
use reo_net_base::Joint;
use reo_net_circuit::Circuit;
use reo_values::{Kindred, List, NoMemory, Value};
use std::alloc::Global;
use std::process::Abort;
use std::test::Fail;

/// The port at which 3 is offered.
fn offering() -> Kind {
    Kind::Writer(WriterPort::offering(Kindred::Int(0, 9), Value::Int(3)))
}

/// From the first port to a channel, and from there to the second.
fn through(alloc: Global) -> Result<List<Joint>, NoMemory> {
    let mut list = List::new(alloc);
    list.push(joint([0, 0, 2, 0]))?;
    list.push(joint([2, 1, 1, 0]))?;
    Ok(list)
}

/// From both ports to a channel.
fn into(alloc: Global) -> Result<List<Joint>, NoMemory> {
    let mut list = List::new(alloc);
    list.push(joint([0, 0, 2, 0]))?;
    list.push(joint([1, 0, 2, 1]))?;
    Ok(list)
}

/// A sync from a port at which 3 is offered to one at which an item is taken.
pub fn synced(rt: &impl Abort, alloc: Global) -> Result<Circuit<Kind>, Fail> {
    let mut list = List::new(alloc);
    list.push(offering())?;
    list.push(Kind::Taker(TakerPort { pending: true }))?;
    list.push(Kind::Sync)?;
    put_together(rt, alloc, list, 2, through(alloc)?)
}

/// A sync drain between a port at which 3 is offered and one at which nothing is.
pub fn drained(rt: &impl Abort, alloc: Global) -> Result<Circuit<Kind>, Fail> {
    let mut list = List::new(alloc);
    list.push(offering())?;
    list.push(Kind::Writer(WriterPort::new(Kindred::Int(0, 9))))?;
    list.push(Kind::SyncDrain)?;
    put_together(rt, alloc, list, 2, into(alloc)?)
}

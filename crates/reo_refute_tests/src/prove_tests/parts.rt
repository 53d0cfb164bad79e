//! Circuits of parts that have nothing to do with one another.
use crate::prove_tests::building::{joint, put_together};
use reo_kinds::{Branches, Kind, TakerPort, WriterPort};
use reo_net_base::Joint;
use reo_net_circuit::Circuit;
use reo_values::{Kindred, List, NoMemory, Value};
use std::alloc::Global;
use std::process::Abort;
use std::test::Fail;

/// Joints, each by its giver's primitive and end and then its taker's.
fn joints_of(alloc: Global, table: &[[usize; 4]]) -> Result<List<Joint>, NoMemory> {
    let mut list = List::new(alloc);
    for index in 0..table.len() {
        list.push(joint(table[index]))?;
    }
    Ok(list)
}

/// A writer at which 3 is offered, or nothing.
fn writer(offers: bool) -> Kind {
    if offers {
        Kind::Writer(WriterPort::offering(Kindred::Int(0, 9), Value::Int(3)))
    } else {
        Kind::Writer(WriterPort::new(Kindred::Int(0, 9)))
    }
}

/// Adds a writer and a taker, at which something is pending or nothing.
fn add_ports(list: &mut List<Kind>, pending: bool) -> Result<(), NoMemory> {
    list.push(writer(pending))?;
    list.push(Kind::Taker(TakerPort { pending }))
}

/// Adds two syncs, a replicator in front of them and a merger behind them.
fn add_twice(list: &mut List<Kind>) -> Result<(), NoMemory> {
    list.push(Kind::Sync)?;
    list.push(Kind::Sync)?;
    list.push(Kind::Replicator(Branches::new(2)))?;
    list.push(Kind::Merger(Branches::new(2)))
}

/// Adds the primitives of both parts, the ports first.
fn add_both(list: &mut List<Kind>) -> Result<(), NoMemory> {
    add_ports(list, false)?;
    add_ports(list, true)?;
    list.push(Kind::Sync)?;
    add_twice(list)
}

/// Adds a writer that offers, two takers of which one takes nothing, and a replicator.
fn add_half_taken(list: &mut List<Kind>) -> Result<(), NoMemory> {
    add_ports(list, true)?;
    list.push(Kind::Taker(TakerPort { pending: false }))?;
    list.push(Kind::Replicator(Branches::new(2)))
}

/// A sync from a port at which nothing is offered to one at which nothing is taken.
pub fn resting(rt: &impl Abort, alloc: Global) -> Result<Circuit<Kind>, Fail> {
    let joints = joints_of(alloc, &[[0, 0, 2, 0], [2, 1, 1, 0]])?;
    let mut list = List::new(alloc);
    add_ports(&mut list, false)?;
    list.push(Kind::Sync)?;
    put_together(rt, alloc, list, 2, joints)
}

/// Two syncs from a port at which 3 is offered to one at which an item is taken: both flow, and one
/// of them must not.
pub fn doubled(rt: &impl Abort, alloc: Global) -> Result<Circuit<Kind>, Fail> {
    let table = [
        [0, 0, 4, 0],
        [4, 1, 2, 0],
        [4, 2, 3, 0],
        [2, 1, 5, 0],
        [3, 1, 5, 1],
        [5, 2, 1, 0],
    ];
    let joints = joints_of(alloc, &table)?;
    let mut list = List::new(alloc);
    add_ports(&mut list, true)?;
    add_twice(&mut list)?;
    put_together(rt, alloc, list, 2, joints)
}

/// Both, the sync at rest first.
pub fn both(rt: &impl Abort, alloc: Global) -> Result<Circuit<Kind>, Fail> {
    let table = [
        [0, 0, 4, 0],
        [4, 1, 1, 0],
        [2, 0, 7, 0],
        [7, 1, 5, 0],
        [7, 2, 6, 0],
        [5, 1, 8, 0],
        [6, 1, 8, 1],
        [8, 2, 3, 0],
    ];
    let joints = joints_of(alloc, &table)?;
    let mut list = List::new(alloc);
    add_both(&mut list)?;
    put_together(rt, alloc, list, 4, joints)
}

/// A port at which 3 is offered, and two takers behind a replicator of which one takes nothing.
pub fn half_taken(rt: &impl Abort, alloc: Global) -> Result<Circuit<Kind>, Fail> {
    let joints = joints_of(alloc, &[[0, 0, 3, 0], [3, 1, 1, 0], [3, 2, 2, 0]])?;
    let mut list = List::new(alloc);
    add_half_taken(&mut list)?;
    put_together(rt, alloc, list, 3, joints)
}

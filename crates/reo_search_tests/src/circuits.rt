//! The circuits that are searched.
use reo_kinds::{Branches, Kind, TakerPort, WriterPort};
use reo_net_base::{End, Joint};
use reo_net_circuit::{Circuit, NetFault, are_parts};
use reo_values::{Kindred, List, NoMemory, Value};
use std::alloc::Global;
use std::process::Abort;

/// A circuit, whose ports come first.
#[derive(Clone, Copy)]
pub enum Shape {
    /// One channel between a writer and a taker: whether 1 is offered, and whether it can be taken.
    Channel(bool, bool),
    /// A drain on one port: a writer, a sync drain that takes both outputs of a replicator, and
    /// this replicator. Whether 1 is offered.
    Drain(bool),
    /// So many writers at a merger, each of which offers its number, and a taker at its output.
    Writers(u16),
}

/// How many primitives, ports and joints a circuit has.
fn counts(shape: Shape) -> [usize; 3] {
    match shape {
        Shape::Channel(_, _) => [3, 2, 2],
        Shape::Drain(_) => [3, 1, 3],
        Shape::Writers(count) => {
            let ports = count as usize + 1;
            [ports + 1, ports, ports]
        }
    }
}

/// A writer that offers this item.
fn offering(item: u16) -> Kind {
    Kind::Writer(WriterPort::offering(Kindred::Int(0, 65535), Value::Int(item as i64)))
}

/// A writer that offers 1, or nothing.
fn writer(offers: bool) -> Kind {
    if offers {
        offering(1)
    } else {
        Kind::Writer(WriterPort::new(Kindred::Int(0, 65535)))
    }
}

/// The merger of so many writers, or one of them or the taker, by its number.
fn at_merger(count: u16, number: usize) -> Kind {
    if number < count as usize {
        offering(number as u16)
    } else if number == count as usize {
        Kind::Taker(TakerPort { pending: true })
    } else {
        Kind::Merger(Branches::new((count as usize).clamp(2, 8192)))
    }
}

/// The primitive of this number.
fn primitive(shape: Shape, number: usize) -> Kind {
    match shape {
        Shape::Channel(offers, pending) => match number {
            0 => writer(offers),
            1 => Kind::Taker(TakerPort { pending }),
            _ => Kind::Sync,
        },
        Shape::Drain(offers) => match number {
            0 => writer(offers),
            1 => Kind::SyncDrain,
            _ => Kind::Replicator(Branches::new(2)),
        },
        Shape::Writers(count) => at_merger(count, number),
    }
}

/// The joint of this number, by its giver's primitive and end and then its taker's. The last one of
/// the drain closes a loop.
fn ends(shape: Shape, number: usize) -> [usize; 4] {
    match shape {
        Shape::Channel(_, _) => match number {
            0 => [0, 0, 2, 0],
            _ => [2, 1, 1, 0],
        },
        Shape::Drain(_) => match number {
            0 => [0, 0, 2, 0],
            1 => [2, 1, 1, 0],
            _ => [2, 2, 1, 1],
        },
        Shape::Writers(count) => {
            let taker = count as usize;
            if number < taker {
                [number, 0, taker + 1, number]
            } else {
                [taker + 1, taker, taker, 0]
            }
        }
    }
}

fn primitives(alloc: Global, shape: Shape, count: usize) -> Result<List<Kind>, NoMemory> {
    let mut list = List::new(alloc);
    for number in 0..count {
        list.push(primitive(shape, number))?;
    }
    Ok(list)
}

fn joints(alloc: Global, shape: Shape, count: usize) -> Result<List<Joint>, NoMemory> {
    let mut list = List::new(alloc);
    for number in 0..count {
        let [giver, source, taker, sink] = ends(shape, number);
        list.push(Joint {
            giver: End {
                primitive: giver,
                end: source,
            },
            taker: End {
                primitive: taker,
                end: sink,
            },
        })?;
    }
    Ok(list)
}

/// The circuit of this shape, or its fault.
pub fn made(rt: &impl Abort, alloc: Global, shape: Shape) -> Result<Circuit<Kind>, NetFault> {
    let [all, ports, joined] = counts(shape);
    let Ok(joints) = joints(alloc, shape, joined) else {
        return Err(NetFault::NoMemory);
    };
    let Ok(primitives) = primitives(alloc, shape, all) else {
        return Err(NetFault::NoMemory);
    };
    assert!(rt; are_parts(primitives.as_slice(), ports, joints.as_slice()));
    assert!(rt; primitives.len() < 1000 && joints.len() < 1000);
    Circuit::new(alloc, primitives, ports, joints)
}

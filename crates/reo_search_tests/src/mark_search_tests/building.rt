//! Circuits, by tables of their primitives and joints.
use reo_kinds::{Branches, Kind, TakerPort, WriterPort};
use reo_net_base::{End, Joint};
use reo_net_circuit::{Circuit, are_parts};
use reo_values::{Kindred, List, NoMemory, Value};
use std::alloc::Global;
use std::process::Abort;
use std::test::Fail;

/// A primitive of a case. A port is ready in the round of a case or not.
#[derive(Clone, Copy)]
pub enum Piece {
    Writer,
    Taker,
    Sync,
    Lossy,
    SyncDrain,
    AsyncDrain,
    Merger,
    Replicator,
    ThreeWays,
}

/// A primitive. A writer that is ready offers 1, and a taker that is ready can take.
fn primitive(piece: Piece, ready: bool) -> Kind {
    let kindred = Kindred::Int(0, 9);
    match piece {
        Piece::Writer => Kind::Writer(if ready {
            WriterPort::offering(kindred, Value::Int(1))
        } else {
            WriterPort::new(kindred)
        }),
        Piece::Taker => Kind::Taker(TakerPort { pending: ready }),
        Piece::Sync => Kind::Sync,
        Piece::Lossy => Kind::Lossy,
        Piece::SyncDrain => Kind::SyncDrain,
        Piece::AsyncDrain => Kind::AsyncDrain,
        Piece::Merger => Kind::Merger(Branches::new(2)),
        Piece::Replicator => Kind::Replicator(Branches::new(2)),
        Piece::ThreeWays => Kind::Replicator(Branches::new(3)),
    }
}

/// The primitives of a case: the first so many are ports, which are ready as these flags say.
fn primitives(alloc: Global, pieces: &[Piece], ready: &[bool]) -> Result<List<Kind>, NoMemory> {
    let mut list = List::new(alloc);
    for index in 0..pieces.len() {
        let is_ready = index < ready.len() && ready[index];
        list.push(primitive(pieces[index], is_ready))?;
    }
    Ok(list)
}

/// Joints, each by its giver's primitive and end and then its taker's.
fn joints(alloc: Global, table: &[[usize; 4]]) -> Result<List<Joint>, NoMemory> {
    let mut list = List::new(alloc);
    for index in 0..table.len() {
        let [giver, source, taker, sink] = table[index];
        list.push(Joint {
            giver: End {
                primitive: giver,
                end: source,
            },
            taker: End {
                primitive: taker,
                end: sink,
            },
        })?;
    }
    Ok(list)
}

/// The circuit of these primitives and joints, whose ports are ready as these flags say.
pub fn put_together(
    rt: &impl Abort,
    alloc: Global,
    pieces: &[Piece],
    table: &[[usize; 4]],
    ready: &[bool],
) -> Result<Circuit<Kind>, Fail> {
    let primitives = primitives(alloc, pieces, ready)?;
    let joints = joints(alloc, table)?;
    let ports = ready.len();
    assert!(rt; are_parts(primitives.as_slice(), ports, joints.as_slice()));
    assert!(rt; primitives.len() < 1000 && joints.len() < 1000);
    Ok(Circuit::new(alloc, primitives, ports, joints)?)
}

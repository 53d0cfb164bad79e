//! The marks that the rows of a side have at one of its ends.
ghost use Rattle.std.specs.Prelude.{◌≡◌, ◌<◌, ℕ, IfOk, length};
ghost use Rattle.reo_net_base.specs.Net.{net_of};
ghost use Rattle.reo_net_base.specs.Wired.{IsEnd};
ghost use Rattle.reo_refute_live.specs.support.Columns.{AreMarksAt, IsColumnOf, joint_end};

use reo_net_base::{End, Primitive};
use reo_net_circuit::Circuit;
use reo_side_tables::byte_of;
use reo_values::{List, NoMemory};
use std::alloc::Global;

/// An end of a side, by its joint, and the marks of the rows there.
#[derive(Drop)]
pub struct Column {
    /// The number of the joint.
    pub joint: usize,
    /// Whether the end gives.
    pub gives: bool,
    /// A byte for each row: 1 is flow, 2 gives a reason, 4 requires one, 8 is jam.
    pub marks: List<u8>,
}

/// The marks of all rows at an end.
fn marks_at<P: Primitive>(
    alloc: Global,
    circuit: &Circuit<P>,
    end: End,
) -> Result<List<u8>, NoMemory>
    requires { IsEnd (net_of P.behaviour circuit.now).primitives end }
    ensures { let net = net_of P.behaviour circuit.now in IfOk result (AreMarksAt net end) }
{
    circuit.known();
    let primitive = circuit.primitive(end.primitive);
    let side = primitive.side_of(end.end);
    let mut marks = List::new(alloc);
    for row in 0..primitive.rows(side) {
        marks.push(byte_of(primitive.mark(side, row, end.end)))?;
    }
    Ok(marks)
}

/// The giver of a joint, or its taker.
pub(crate) fn end_at<P: Primitive>(circuit: &Circuit<P>, joint: usize, gives: bool) -> End
    requires { joint < length circuit.now.joints }
    ensures end { result ≡ joint_end (net_of P.behaviour circuit.now) joint gives }
    ensures is_end { IsEnd (net_of P.behaviour circuit.now).primitives result }
{
    circuit.known();
    let ends = circuit.joint(joint);
    if gives { ends.giver } else { ends.taker }
}

/// The column of the giver or of the taker of a joint.
pub(crate) fn column_of<P: Primitive>(
    alloc: Global,
    circuit: &Circuit<P>,
    joint: usize,
    gives: bool,
) -> Result<Column, NoMemory>
    requires { joint < length circuit.now.joints }
    ensures { let net = net_of P.behaviour circuit.now in
        IfOk result (IsColumnOf net joint gives) }
{
    let marks = marks_at(alloc, circuit, end_at(circuit, joint, gives))?;
    Ok(Column {
        joint,
        gives,
        marks,
    })
}

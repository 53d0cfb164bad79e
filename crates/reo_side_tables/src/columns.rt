//! The marks of the groups of a side, by the joint.
ghost use Rattle.std.specs.Prelude.{◌≡◌, ◌<◌, ℕ, IfOk, length, slice_index};
ghost use Rattle.reo_net_base.specs.Net.{net_of, all_sides};
ghost use Rattle.reo_side_tables.specs.Boards.{AreColumns};
ghost use Rattle.reo_side_tables.specs.Marks.{IsJointOf};

use crate::marks::{byte_of, end_at};
use reo_net_base::Primitive;
use reo_net_circuit::Circuit;
use reo_values::{List, NoMemory};
use std::alloc::Global;

/// For each of these joints in turn the bytes of the marks that the groups of a side have there.
pub(crate) fn columns_of<P: Primitive>(
    alloc: Global,
    circuit: &Circuit<P>,
    side: usize,
    joints: &[usize],
) -> Result<List<u8>, NoMemory>
    requires side { side < length (all_sides (net_of P.behaviour circuit.now).primitives) }
    requires joints { let net = net_of P.behaviour circuit.now in
        (m : ℕ) → m < length joints.now → IsJointOf net side (slice_index joints.now m) }
    ensures { IfOk result (AreColumns (net_of P.behaviour circuit.now) side joints.now) }
{
    circuit.known();
    let mut columns = List::new(alloc);
    for index in 0..joints.len() {
        let end = end_at(circuit, side, joints[index]).end;
        for group in 0..circuit.groups(side) {
            columns.push(byte_of(circuit.common(side, group, end)))?;
        }
    }
    Ok(columns)
}

//! What a row of a side says at a joint there.
ghost use Rattle.std.specs.Prelude.{◌≡◌, ◌<◌, length};
ghost use Rattle.reo_net_base.specs.Net.{net_of, all_sides};
ghost use Rattle.reo_net_laws.specs.Ends.{IsRowOf};
ghost use Rattle.reo_joint_values.specs.Values.{giver_side, taker_side, AtSide};
ghost use Rattle.reo_side_tables.specs.Marks.{byte_of, end_at, mark_at_joint};

use reo_net_base::{End, Mark, Primitive};
use reo_net_circuit::Circuit;

/// The byte of a mark: 1 is flow, 2 gives a reason, 4 requires one, 8 is jam.
pub fn byte_of(mark: Mark) -> u8
    ensures { result ≡ byte_of mark }
{
    match mark {
        Mark::F => 1,
        Mark::G => 2,
        Mark::R => 4,
        Mark::J => 8,
    }
}

/// The side of the giver of a joint. This takes no memory.
pub fn giver_side<P: Primitive>(circuit: &Circuit<P>, joint: usize) -> usize
    requires { joint < length circuit.now.joints }
    ensures side { result ≡ giver_side (net_of P.behaviour circuit.now) joint }
    ensures in_range { result < length (all_sides (net_of P.behaviour circuit.now).primitives) }
{
    circuit.known();
    circuit.side_of(circuit.joint(joint).giver)
}

/// The side of the taker of a joint. This takes no memory.
pub fn taker_side<P: Primitive>(circuit: &Circuit<P>, joint: usize) -> usize
    requires { joint < length circuit.now.joints }
    ensures side { result ≡ taker_side (net_of P.behaviour circuit.now) joint }
    ensures in_range { result < length (all_sides (net_of P.behaviour circuit.now).primitives) }
{
    circuit.known();
    circuit.side_of(circuit.joint(joint).taker)
}

/// The end of a joint that is of a side. This takes no memory.
pub fn end_at<P: Primitive>(circuit: &Circuit<P>, side: usize, joint: usize) -> End
    requires { joint < length circuit.now.joints }
    ensures { result ≡ end_at (net_of P.behaviour circuit.now) side joint }
{
    if giver_side(circuit, joint) == side {
        circuit.joint(joint).giver
    } else {
        circuit.joint(joint).taker
    }
}

/// The mark that a row of a side has at a joint there. This takes no memory.
pub fn mark_at_joint<P: Primitive>(
    circuit: &Circuit<P>,
    side: usize,
    row: usize,
    joint: usize,
) -> Mark
    requires joint { joint < length circuit.now.joints }
    requires at { AtSide (net_of P.behaviour circuit.now) joint side }
    requires row { IsRowOf (net_of P.behaviour circuit.now) side row }
    ensures { result ≡ mark_at_joint (net_of P.behaviour circuit.now) side row joint }
{
    circuit.known();
    let end = end_at(circuit, side, joint);
    let primitive = circuit.primitive(end.primitive);
    primitive.mark(primitive.side_of(end.end), row, end.end)
}

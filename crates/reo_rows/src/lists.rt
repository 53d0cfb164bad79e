//! Rows that are read out of the board of a side.
ghost use Rattle.std.specs.Prelude.{◌<◌, length};
ghost use Rattle.reo_net_base.specs.Net.{net_of, all_sides};
ghost use Rattle.reo_side_tables.specs.Boards.{AreBoards};
ghost use Rattle.reo_side_tables.specs.Listing.{Lists};
ghost use Rattle.reo_side_tables.specs.Marks.{end_at, IsJointOf, IsApartAt};

use reo_net_base::Primitive;
use reo_net_circuit::Circuit;
use reo_side_tables::{Board, end_at};
use reo_values::List;

/// The rows of a side that are not as their groups at a joint there.
pub(crate) fn apart_there<'a, P: Primitive>(
    circuit: &Circuit<P>,
    boards: &'a List<Board>,
    side: usize,
    joint: usize,
) -> &'a [usize]
    requires boards { AreBoards (net_of P.behaviour circuit.now) boards.now }
    requires side { side < length (all_sides (net_of P.behaviour circuit.now).primitives) }
    requires joint { IsJointOf (net_of P.behaviour circuit.now) side joint }
    ensures { let net = net_of P.behaviour circuit.now in
        Lists (IsApartAt net side (end_at net side joint).end) result.now }
{
    circuit.known();
    let end = end_at(circuit, side, joint);
    boards.at(side).apart.at(end.end).as_slice()
}

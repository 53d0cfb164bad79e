//! Boards: what a search looks up of a side.
ghost use Rattle.std.specs.Prelude.{◌≡◌, ◌<◌, IfOk, length};
ghost use Rattle.reo_net_base.specs.Net.{net_of, all_sides};
ghost use Rattle.reo_net_circuit.specs.found_ends.Ends.{AreEnds};
ghost use Rattle.reo_side_tables.specs.Boards.{IsBoard, AreBoards};

use crate::columns::columns_of;
use crate::flows::flows_of;
use crate::joints::{apart_of, joints_of};
use reo_net_base::Primitive;
use reo_net_circuit::{Circuit, Ends};
use reo_values::{List, NoMemory};
use std::alloc::Global;

/// The joints where a row takes items in, and those where it gives them.
#[derive(Drop)]
pub struct Flow {
    pub taking: List<usize>,
    pub giving: List<usize>,
}

/// What a search looks up of a side: its joints; for each joint the bytes of the marks that the
/// groups of its rows have there; for each row where it flows; and for each end of the primitive
/// the rows that are not as their groups there.
#[derive(Drop)]
pub struct Board {
    pub joints: List<usize>,
    pub columns: List<u8>,
    pub flows: List<Flow>,
    pub apart: List<List<usize>>,
}

/// The board of a side, in time linear in its ends times its groups, its rows and where these flow.
/// `NoMemory` is out of memory.
pub fn board_of<P: Primitive>(
    alloc: Global,
    circuit: &Circuit<P>,
    ends: &Ends,
    side: usize,
) -> Result<Board, NoMemory>
    requires ends { AreEnds (net_of P.behaviour circuit.now) ends.now }
    requires side { side < length (all_sides (net_of P.behaviour circuit.now).primitives) }
    ensures { IfOk result (IsBoard (net_of P.behaviour circuit.now) side) }
{
    let joints = joints_of(alloc, circuit, ends, side)?;
    let columns = columns_of(alloc, circuit, side, joints.as_slice())?;
    let apart = apart_of(alloc, circuit, side)?;
    let flows = flows_of(alloc, circuit, side, joints.as_slice(), &apart)?;
    Ok(Board {
        joints,
        columns,
        flows,
        apart,
    })
}

/// The boards of all sides. `NoMemory` is out of memory.
pub fn boards_of<P: Primitive>(
    alloc: Global,
    circuit: &Circuit<P>,
    ends: &Ends,
) -> Result<List<Board>, NoMemory>
    requires ends { AreEnds (net_of P.behaviour circuit.now) ends.now }
    ensures { IfOk result (AreBoards (net_of P.behaviour circuit.now)) }
{
    let mut boards = List::new(alloc);
    for side in 0..circuit.sides() {
        boards.push(board_of(alloc, circuit, ends, side)?)?;
    }
    Ok(boards)
}

//! Boards that are made anew.
ghost use Rattle.std.specs.Prelude.{◌≡◌, ◌<◌, ℕ, true, OnOk, length};
ghost use Rattle.reo_net_base.specs.Net.{net_of, all_sides};
ghost use Rattle.reo_net_circuit.specs.found_ends.Ends.{AreEnds};
ghost use Rattle.reo_side_tables.specs.Boards.{IsBoard};
ghost use Rattle.reo_propagate.specs.Queues.{among};
ghost use Rattle.reo_search_tables.specs.Renewing.{AreRightAt, StaysBesides};

use reo_net_base::Primitive;
use reo_net_circuit::{Circuit, Ends};
use reo_side_tables::{Board, board_of};
use reo_values::{List, NoMemory};
use std::alloc::Global;

/// Makes the boards of some sides anew. Other boards stay, also after `NoMemory`, which is out of
/// memory.
pub(crate) fn renew_boards<P: Primitive>(
    alloc: Global,
    circuit: &Circuit<P>,
    ends: &Ends,
    sides: &[usize],
    boards: &mut List<Board>,
) -> Result<(), NoMemory>
    requires ends { AreEnds (net_of P.behaviour circuit.now) ends.now }
    requires sides { (s : ℕ) → among sides.now s ≡ true
        → s < length (all_sides (net_of P.behaviour circuit.now).primitives) }
    requires one_each { let net = net_of P.behaviour circuit.now in
        length boards.old ≡ length (all_sides net.primitives) }
    ensures stays { StaysBesides sides.now boards.old boards.new }
    ensures right { OnOk result
        (AreRightAt sides.now (length sides.now)
        (IsBoard (net_of P.behaviour circuit.now)) boards.new) }
{
    for side in sides {
        let board = board_of(alloc, circuit, ends, *side)?;
        *boards.at_mut(*side) = board;
    }
    Ok(())
}

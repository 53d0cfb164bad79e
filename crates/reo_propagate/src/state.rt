//! What a search keeps: the values and the rows that are left, and the sides that wait.
ghost use Rattle.std.specs.Prelude.{◌≡◌, ◌<◌, ◌^◌, ℕ, true, [], IfOk, length, replicate, slice_index_or};
ghost use Rattle.reo_net_base.specs.Net.{net_of, all_sides};
ghost use Rattle.reo_net_circuit.specs.found_ends.Ends.{AreEnds};
ghost use Rattle.reo_side_tables.specs.Boards.{AreBoards};
ghost use Rattle.reo_propagate.specs.Queues.{among};
ghost use Rattle.reo_propagate.specs.Beginning.{AreFlags, IsSearch, IsWhole};

use crate::line::line_of;
use crate::queue::WaitingSides;
use reo_net_base::Primitive;
use reo_net_circuit::{Circuit, Ends};
use reo_rows::{FLOWS, RowFlags, Rows, all_rows};
use reo_side_tables::Board;
use reo_values::{List, NoMemory, Value};
use std::alloc::Global;

/// The values and the rows that are left, and the sides that wait.
#[derive(Drop)]
pub struct State {
    pub alive: RowFlags,
    pub rows: Rows,
    pub queue: WaitingSides,
}

/// A flag for each value of each joint, all set. `NoMemory` is out of memory.
fn all_values(alloc: Global, items: &[List<Value>]) -> Result<RowFlags, NoMemory>
    requires few { (j : ℕ) → length (slice_index_or items.now j []) < 2 ^ 32 }
    ensures { IfOk result (AreFlags items.now (length items.now) (λ j v. true)) }
{
    let mut alive = RowFlags::new(alloc);
    for joint in 0..items.len() {
        alive.push_row(alloc, items[joint].len() + FLOWS, true)?;
    }
    Ok(alive)
}

/// So many sides wait, and these stand in the line. `NoMemory` is out of memory.
pub(crate) fn all_waiting(
    alloc: Global,
    count: usize,
    sides: &[usize],
) -> Result<WaitingSides, NoMemory>
    ensures waits { IfOk result (λ queue. queue.waits ≡ replicate count true) }
    ensures line { IfOk result (λ queue. queue.line ≡ sides.now) }
{
    let mut waits = List::new(alloc);
    for _index in 0..count {
        waits.push(true)?;
    }
    let line = line_of(alloc, sides)?;
    Ok(WaitingSides { waits, line })
}

/// All values and all rows, where these sides wait. `NoMemory` is out of memory.
pub fn begin<P: Primitive>(
    alloc: Global,
    circuit: &Circuit<P>,
    boards: &List<Board>,
    ends: &Ends,
    items: &[List<Value>],
    sides: &[usize],
) -> Result<State, NoMemory>
    requires boards { AreBoards (net_of P.behaviour circuit.now) boards.now }
    requires ends { AreEnds (net_of P.behaviour circuit.now) ends.now }
    requires items { length items.now ≡ length circuit.now.joints }
    requires few { (j : ℕ) → length (slice_index_or items.now j []) < 2 ^ 32 }
    ensures search { let net = net_of P.behaviour circuit.now in
        IfOk result (IsSearch net boards.now ends.now items.now (among sides.now)) }
    ensures whole { IfOk result (IsWhole (net_of P.behaviour circuit.now) items.now) }
{
    let _ = boards;
    let _ = ends;
    let alive = all_values(alloc, items)?;
    let rows = all_rows(alloc, circuit, items)?;
    let queue = all_waiting(alloc, circuit.sides(), sides)?;
    Ok(State { alive, rows, queue })
}

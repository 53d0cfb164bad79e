//! The line of a round.
ghost use Rattle.std.specs.Prelude.{◌≡◌, ◌<◌, ◌+◌, IfOk, length, slice_index, slice_index_or};
ghost use Rattle.reo_net_base.specs.Colouring.{AreRows};
ghost use Rattle.reo_net_base.specs.Net.{all_sides, behaviour_at, first_side, net_of};
ghost use Rattle.reo_net_base.specs.declared.joint.Joint.{Joint as JointEnds};
ghost use Rattle.reo_trace.specs.Entries.{cell_of, entries_of, entry_at, is_idle, is_still, line_for};

use crate::{Cell, Entry, RoundLine};
use reo_net_base::{Joint, Move, Primitive};
use reo_net_circuit::Circuit;
use reo_values::{List, NoMemory, copy};
use std::alloc::Global;

/// The row of a side of the primitive at a place.
fn row_of<P: Primitive>(circuit: &Circuit<P>, rows: &[u32], index: usize, side: usize) -> u32
    requires rows { AreRows (all_sides (net_of P.behaviour circuit.now).primitives) rows.now }
    requires index { index < length circuit.now.primitives }
    requires side { side < (behaviour_at (net_of P.behaviour circuit.now).primitives index).sides }
    ensures { let net = net_of P.behaviour circuit.now in
        result ≡ slice_index rows.now (first_side net.primitives index + side) }
{
    let _sides = circuit.sides();
    let first = circuit.first_of(index);
    rows[first + side]
}

/// The cell of a side of the primitive at a place.
fn cell_at<P: Primitive>(circuit: &Circuit<P>, rows: &[u32], index: usize, side: usize) -> Cell
    requires rows { AreRows (all_sides (net_of P.behaviour circuit.now).primitives) rows.now }
    requires index { index < length circuit.now.primitives }
    requires side { side < (behaviour_at (net_of P.behaviour circuit.now).primitives index).sides }
    ensures { let net = net_of P.behaviour circuit.now in
        result ≡ cell_of (behaviour_at net.primitives index) side
        (slice_index rows.now (first_side net.primitives index + side)) }
{
    let row = row_of(circuit, rows, index, side);
    if row as usize + 1 == circuit.primitive(index).rows(side) {
        Cell::Jam
    } else {
        Cell::Row(row)
    }
}

/// The entry of the primitive at a place.
#[tactic(auto, unfolding(crate::specs::Entries::entry_at))]
pub(crate) fn entry_at<P: Primitive>(circuit: &Circuit<P>, rows: &[u32], index: usize) -> Entry
    requires rows { AreRows (all_sides (net_of P.behaviour circuit.now).primitives) rows.now }
    requires index { index < length circuit.now.primitives }
    ensures { result ≡ entry_at (net_of P.behaviour circuit.now) rows.now index }
{
    circuit.known();
    if circuit.primitive(index).sides() == 2 {
        let mouth = cell_at(circuit, rows, index, 0);
        let tail = cell_at(circuit, rows, index, 1);
        Entry::Two(mouth, tail)
    } else {
        Entry::One(cell_at(circuit, rows, index, 0))
    }
}

/// The entries of all primitives.
fn entries_of<P: Primitive>(
    alloc: Global,
    circuit: &Circuit<P>,
    rows: &[u32],
) -> Result<List<Entry>, NoMemory>
    requires { AreRows (all_sides (net_of P.behaviour circuit.now).primitives) rows.now }
    ensures { IfOk result (λ made. made ≡ entries_of (net_of P.behaviour circuit.now) rows.now) }
{
    let mut entries = List::new(alloc);
    for index in 0..circuit.primitives().len() {
        entries.push(entry_at(circuit, rows, index))?;
    }
    Ok(entries)
}

/// Whether neither end of a joint flows.
#[tactic(auto, unfolding(crate::specs::Entries::is_still))]
fn is_still<P: Primitive>(circuit: &Circuit<P>, rows: &[u32], index: usize) -> bool
    requires rows { AreRows (all_sides (net_of P.behaviour circuit.now).primitives) rows.now }
    requires index { index < length circuit.now.joints }
    ensures { let net = net_of P.behaviour circuit.now in
        (d : JointEnds)
        → result ≡ is_still net rows.now (slice_index_or circuit.now.joints index d) }
{
    circuit.known();
    let Joint { giver, taker } = circuit.joint(index);
    !(circuit.mark_at(rows, giver).is_flow() || circuit.mark_at(rows, taker).is_flow())
}

/// Whether nothing flows: no end of any joint. This takes no memory.
pub fn is_idle<P: Primitive>(circuit: &Circuit<P>, rows: &[u32]) -> bool
    requires { AreRows (all_sides (net_of P.behaviour circuit.now).primitives) rows.now }
    ensures { result ≡ is_idle (net_of P.behaviour circuit.now) rows.now }
{
    for index in 0..circuit.joint_count() {
        if !is_still(circuit, rows, index) {
            return false;
        }
    }
    true
}

/// The same moves.
fn copy_moves(alloc: Global, moves: &[Move]) -> Result<List<Move>, NoMemory>
    ensures { IfOk result (λ made. made ≡ moves.now) }
{
    let mut made = List::new(alloc);
    for one in moves {
        let item = copy(&one.item)?;
        made.push(Move {
            port: one.port,
            item,
        })?;
    }
    Ok(made)
}

/// The line of a round in which the sides of the circuit have these rows and these items flow at
/// its ports: whether any end flows, the moves, and for each primitive the numbers of its rows, of
/// which the last of a side is its jam row.
///
/// `NoMemory` is out of memory.
pub fn line_of<P: Primitive>(
    alloc: Global,
    circuit: &Circuit<P>,
    round: u64,
    moves: &[Move],
    rows: &[u32],
) -> Result<RoundLine, NoMemory>
    requires { AreRows (all_sides (net_of P.behaviour circuit.now).primitives) rows.now }
    ensures { let net = net_of P.behaviour circuit.now in
        IfOk result (λ line. line ≡ line_for net round rows.now moves.now) }
{
    let idle = is_idle(circuit, rows);
    let moves = copy_moves(alloc, moves)?;
    let entries = entries_of(alloc, circuit, rows)?;
    Ok(RoundLine {
        round,
        idle,
        moves,
        entries,
    })
}

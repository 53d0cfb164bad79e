//! The rows of the sides of a circuit, as a search sees them.
ghost use Rattle.std.specs.Prelude.{◌≡◌, ◌<◌, ◌^◌, ℕ, true, [], IfOk, length, replicate, slice_index_or};
ghost use Rattle.reo_net_base.specs.Net.{net_of, all_sides};
ghost use Rattle.reo_rows.specs.RowFlags.{flag};
ghost use Rattle.reo_rows.specs.Beginning.{nothing_noted, AreRowFlags, AreGroupNotes, AreValueFlags};
ghost use Rattle.reo_rows.specs.Rows.{AreTables};

use crate::flags::RowFlags;
use crate::groups::{Group, Odd};
use crate::marks::FLOWS;
use reo_net_base::Primitive;
use reo_net_circuit::Circuit;
use reo_values::{List, NoMemory, Value};
use std::alloc::Global;

/// For each side which rows may still stand and what is noted of its groups; for each joint which
/// values with flow were seen to be used by the side that was looked at last; and room for the
/// marks of one side's groups.
#[derive(Drop)]
pub struct Rows {
    pub live: RowFlags,
    pub notes: List<List<Group>>,
    pub seen: RowFlags,
    pub odds: List<Odd>,
    pub fits: Vec<u8>,
}

/// So many groups of which nothing is noted. `NoMemory` is out of memory.
fn empty_notes(alloc: Global, count: usize) -> Result<List<Group>, NoMemory>
    ensures { IfOk result (λ notes. notes ≡ replicate count nothing_noted) }
{
    let empty = Group {
        first: None,
        other: None,
    };
    match vec![in alloc; empty; count] {
        Ok(list) => Ok(List::from_vec(list)),
        Err(_) => Err(NoMemory),
    }
}

/// The flags of the rows of all sides: each row has its flag. `NoMemory` is out of memory.
fn row_flags<P: Primitive>(alloc: Global, circuit: &Circuit<P>) -> Result<RowFlags, NoMemory>
    ensures { let net = net_of P.behaviour circuit.now in
        IfOk result (AreRowFlags net (length (all_sides net.primitives))) }
{
    let mut live = RowFlags::new(alloc);
    for side in 0..circuit.sides() {
        live.push_row(alloc, circuit.rows(side), true)?;
    }
    Ok(live)
}

/// Of the groups of all sides nothing is noted. `NoMemory` is out of memory.
fn group_notes<P: Primitive>(
    alloc: Global,
    circuit: &Circuit<P>,
) -> Result<List<List<Group>>, NoMemory>
    ensures { let net = net_of P.behaviour circuit.now in
        IfOk result (AreGroupNotes net (length (all_sides net.primitives))) }
{
    let mut notes = List::new(alloc);
    for side in 0..circuit.sides() {
        notes.push(empty_notes(alloc, circuit.groups(side))?)?;
    }
    Ok(notes)
}

/// The flags of the values of all joints: none is seen. `NoMemory` is out of memory.
fn value_flags(alloc: Global, items: &[List<Value>]) -> Result<RowFlags, NoMemory>
    requires few { (j : ℕ) → length (slice_index_or items.now j []) < 2 ^ 32 }
    ensures { IfOk result (AreValueFlags items.now (length items.now)) }
{
    let mut seen = RowFlags::new(alloc);
    for joint in 0..items.len() {
        seen.push_row(alloc, items[joint].len() + FLOWS, false)?;
    }
    Ok(seen)
}

/// All rows, each with its flag, of which nothing is known yet. `NoMemory` is out of memory.
pub fn all_rows<P: Primitive>(
    alloc: Global,
    circuit: &Circuit<P>,
    items: &[List<Value>],
) -> Result<Rows, NoMemory>
    requires items { length items.now ≡ length circuit.now.joints }
    requires few { (j : ℕ) → length (slice_index_or items.now j []) < 2 ^ 32 }
    ensures tables { IfOk result (AreTables (net_of P.behaviour circuit.now) items.now) }
    ensures all { IfOk result (λ rows. (side row : ℕ)
        → row < length (slice_index_or rows.live side []) → flag rows.live side row ≡ true) }
{
    Ok(Rows {
        live: row_flags(alloc, circuit)?,
        notes: group_notes(alloc, circuit)?,
        seen: value_flags(alloc, items)?,
        odds: List::new(alloc),
        fits: Vec::new(alloc),
    })
}

//! The rows of a knot.
ghost use Rattle.std.specs.Prelude.{◌≡◌, ◌↔◌, ◌||◌, ◌<◌, ◌≤◌, ◌+◌, ◌-◌, ◌^◌, ℕ, IsTrue, IfOk, length, drop, slice_index};
ghost use Rattle.reo_net_base.specs.Net.{net_of, all_sides, row_count};
ghost use Rattle.reo_side_tables.specs.Marks.{side_in};
ghost use Rattle.reo_walk.specs.Arranged.{IsJamRow};

use reo_net_base::Primitive;
use reo_net_circuit::Circuit;
use reo_values::{List, NoMemory};
use std::alloc::Global;

/// The sides of a knot in increasing order, a row for each of them, and whether one of these is a
/// jam row.
#[derive(Drop)]
pub struct Part {
    pub jammed: bool,
    pub sides: List<usize>,
    pub rows: List<u32>,
}

/// Whether one of two things is so.
fn one_is(first: bool, second: bool) -> bool
    ensures { result ≡ (first || second) }
{
    first || second
}

/// Whether a row of a side jams: it is the last of its table.
fn is_jam_row<P: Primitive>(circuit: &Circuit<P>, side: usize, row: u32) -> bool
    requires side { side < length (all_sides (net_of P.behaviour circuit.now).primitives) }
    ensures { IsTrue result ↔ IsJamRow (net_of P.behaviour circuit.now) side row }
{
    row as usize + 1 == circuit.rows(side)
}

/// A row of a side, as it is written down.
fn row_of<P: Primitive>(circuit: &Circuit<P>, side: usize, row: usize) -> u32
    requires side { side < length (all_sides (net_of P.behaviour circuit.now).primitives) }
    requires in_table { row < row_count (side_in (net_of P.behaviour circuit.now) side) }
    ensures { result ≡ row }
{
    let _count = circuit.rows(side);
    row as u32
}

/// The part with these sides, where the last of these numbers are their rows. `NoMemory` is out of
/// memory.
pub fn part_of<P: Primitive>(
    alloc: Global,
    circuit: &Circuit<P>,
    sides: &[usize],
    chosen: &[usize],
) -> Result<Part, NoMemory>
    requires sides { let net = net_of P.behaviour circuit.now in
        (m : ℕ) → m < length sides.now
        → slice_index sides.now m < length (all_sides net.primitives) }
    requires enough { length sides.now ≤ length chosen.now }
    requires in_tables { let net = net_of P.behaviour circuit.now in
        (m : ℕ) → m < length sides.now → slice_index chosen.now
        (length chosen.now - length sides.now + m) < row_count
        (side_in net (slice_index sides.now m)) }
    ensures sides { IfOk result (λ part. part.sides ≡ sides.now) }
    ensures rows { IfOk result (λ part. part.rows ≡ drop (length chosen.now - length sides.now)
        chosen.now) }
    ensures jammed { let net = net_of P.behaviour circuit.now in
        IfOk result (λ part. IsTrue part.jammed ↔ ((m : ℕ) × (m < length part.sides)
        × IsJamRow net (slice_index part.sides m) (slice_index part.rows m))) }
{
    let mut part = Part {
        jammed: false,
        sides: List::new(alloc),
        rows: List::new(alloc),
    };
    let first = chosen.len() - sides.len();
    for index in 0..sides.len() {
        let side = sides[index];
        let row = row_of(circuit, side, chosen[first + index]);
        part.sides.push(side)?;
        part.rows.push(row)?;
        let jams = is_jam_row(circuit, side, row);
        part.jammed = one_is(part.jammed, jams);
    }
    Ok(part)
}

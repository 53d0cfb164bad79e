//! Bytes that mark rows.
ghost use Rattle.std.specs.Prelude.{◌≡◌, ◌≢◌, ◌↔◌, ℕ, ◌<◌, IfOk, IsTrue, length, replicate, slice_index, slice_index_or};
ghost use Rattle.reo_net_base.specs.Net.{net_of, all_sides, row_count, Side};
ghost use Rattle.reo_net_base.specs.Sides.{side_count};
ghost use Rattle.reo_net_laws.specs.Ends.{IsRowOf};
ghost use Rattle.reo_refute_parts.specs.places.KeyPlaces.{position_of};
ghost use Rattle.reo_refute_parts.specs.places.AllowedRows.{AreMarked};

use crate::places::place::SidePlace;
use crate::places::places::number_of;
use reo_net_base::Primitive;
use reo_net_circuit::Circuit;
use reo_values::{List, NoMemory};
use std::alloc::Global;

/// So many bytes, each 1.
pub(crate) fn all_marked(alloc: Global, count: usize) -> Result<List<u8>, NoMemory>
    ensures { IfOk result (λ bytes. bytes ≡ replicate count 1) }
{
    match vec![in alloc; 1; count] {
        Ok(bytes) => Ok(List::from_vec(bytes)),
        Err(_) => Err(NoMemory),
    }
}

/// Whether some byte is not 0.
pub(crate) fn has_mark(bytes: &[u8]) -> bool
    ensures { IsTrue result
        ↔ ((row : ℕ) × (row < length bytes.now) × (slice_index bytes.now row ≢ 0)) }
{
    for row in 0..bytes.len() {
        if bytes[row] != 0 {
            return true;
        }
    }
    false
}

/// A byte that is not 0 exactly where both hold: the row agrees, and it puts a smaller number than
/// is wanted at a place.
fn smaller_byte<P: Primitive>(
    circuit: &Circuit<P>,
    turn: u64,
    place: SidePlace,
    row: usize,
    wanted: usize,
    agrees: u8,
) -> u8
    requires side { place.side < side_count (net_of P.behaviour circuit.now) }
    requires row { IsRowOf (net_of P.behaviour circuit.now) place.side row }
    ensures { let position = position_of (net_of P.behaviour circuit.now) turn place in
        (result ≢ 0) ↔ ((agrees ≢ 0) × (position.number row < wanted)) }
{
    if agrees != 0 && number_of(circuit, turn, place, row) < wanted {
        1
    } else {
        0
    }
}

/// Marks the rows of a place's side that agree and put a smaller number there than is wanted.
pub(crate) fn mark_smaller<P: Primitive>(
    circuit: &Circuit<P>,
    turn: u64,
    place: SidePlace,
    wanted: usize,
    agreeing: &[u8],
    smaller: &mut List<u8>,
) -> Result<(), NoMemory>
    requires side { place.side < side_count (net_of P.behaviour circuit.now) }
    requires rows { (d : Side) → length agreeing.now ≡ row_count
        (slice_index_or (all_sides (net_of P.behaviour circuit.now).primitives) place.side d) }
    ensures { let position = position_of (net_of P.behaviour circuit.now) turn place in
        IfOk result (λ _. AreMarked (length agreeing.now)
        (λ row. (slice_index agreeing.now row ≢ 0) × (position.number row < wanted))
        smaller.new) }
{
    smaller.clear();
    for row in 0..agreeing.len() {
        smaller.push(smaller_byte(circuit, turn, place, row, wanted, agreeing[row]))?;
    }
    Ok(())
}

/// Clears the marks of the rows of a place's side that put another number there than is wanted.
pub(crate) fn clear_others<P: Primitive>(
    circuit: &Circuit<P>,
    turn: u64,
    place: SidePlace,
    wanted: usize,
    rows: &mut List<u8>,
)
    requires side { place.side < side_count (net_of P.behaviour circuit.now) }
    requires rows { (d : Side) → length rows.old ≡ row_count
        (slice_index_or (all_sides (net_of P.behaviour circuit.now).primitives) place.side d) }
    ensures { let position = position_of (net_of P.behaviour circuit.now) turn place in
        AreMarked (length rows.old)
        (λ row. (slice_index rows.old row ≢ 0) × (position.number row ≡ wanted)) rows.new }
{
    for row in 0..rows.len() {
        if number_of(circuit, turn, place, row) != wanted {
            *rows.at_mut(row) = 0;
        }
    }
}

//! Taking the least number at a place.
ghost use Rattle.std.specs.Prelude.{◌≡◌, ◌∷◌, ◌*◌, ◌+◌, ◌<◌, ℕ, [], length, slice_index, true, false};
ghost use Rattle.reo_net_base.specs.Net.{net_of};
ghost use Rattle.reo_net_base.specs.Sides.{side_count};
ghost use Rattle.reo_mark_sets.specs.Standing.{AreFewer};
ghost use Rattle.reo_mark_search.specs.Fitting.{ArePinned};
ghost use Rattle.reo_mark_search.specs.Places.{class_place, row_place};
ghost use Rattle.reo_mark_search.specs.Searched.{IsSearched, in_part, part_sides};
ghost use Rattle.reo_mark_search.specs.Walking.{GoesOn};

use crate::narrowing::narrow_waiting;
use crate::searched::Searched;
use crate::seats::seat_at;
use reo_mark_sets::MarkSets;
use reo_net_base::{Form, Primitive};
use reo_values::List;

/// Whether a form is that of a merger or of a replicator.
fn is_late(form: Form) -> bool {
    matches!(form, Form::Merging(_) | Form::Replicating(_))
}

/// Takes the least class at a side, and narrows. The answer is whether some row is left wherever
/// this went.
pub(crate) fn class_at<P: Primitive>(
    searched: &Searched<'_, P>,
    sets: &mut MarkSets,
    side: usize,
) -> bool
    requires searched { IsSearched (net_of P.behaviour searched.now.circuit.now) searched.now }
    requires sets { length sets.old ≡ 2 * length searched.now.circuit.now.joints }
    requires side { side < side_count (net_of P.behaviour searched.now.circuit.now) }
    requires here { in_part searched.now side ≡ true }
    ensures one_each { length sets.new ≡ length sets.old }
    ensures fewer { AreFewer sets.old sets.new }
    ensures goes_on { let net = net_of P.behaviour searched.now.circuit.now in
        GoesOn net (in_part searched.now) (class_place net searched.now.turn side ∷ [])
        sets.old sets.new }
{
    searched.circuit.known();
    let seat = seat_at(searched, side);
    sets.take_class(seat.form, seat.places, searched.turn);
    if is_late(seat.form) {
        sets.wait(side);
    }
    narrow_waiting(searched, sets)
}

/// Takes the first row at a side, notes it, and narrows. The answer is whether some row is left
/// wherever this went.
pub(crate) fn row_at<P: Primitive>(
    searched: &Searched<'_, P>,
    sets: &mut MarkSets,
    index: usize,
    rows: &mut List<u32>,
) -> bool
    requires searched { IsSearched (net_of P.behaviour searched.now.circuit.now) searched.now }
    requires sets { length sets.old ≡ 2 * length searched.now.circuit.now.joints }
    requires index { index < length (part_sides searched.now) }
    requires rows { length rows.old ≡ side_count (net_of P.behaviour searched.now.circuit.now) }
    ensures one_each { length sets.new ≡ length sets.old }
    ensures goes_on { let net = net_of P.behaviour searched.now.circuit.now in
        let side = slice_index (part_sides searched.now) index in
        GoesOn net (in_part searched.now) (row_place side ∷ []) sets.old sets.new }
    ensures pinned { let net = net_of P.behaviour searched.now.circuit.now in
        let sides = part_sides searched.now in
        ArePinned net searched.now.spots.now sides index sets.old rows.old
        → ArePinned net searched.now.spots.now sides (index + 1) sets.new rows.new }
    ensures count { length rows.new ≡ length rows.old }
    ensures others { (s : ℕ) → in_part searched.now s ≡ false
        → slice_index rows.new s ≡ slice_index rows.old s }
{
    searched.circuit.known();
    let side = searched.knots.sides(searched.part)[index];
    let seat = seat_at(searched, side);
    let row = sets.take_row(seat.form, seat.places);
    *rows.at_mut(side) = row as u32;
    narrow_waiting(searched, sets)
}

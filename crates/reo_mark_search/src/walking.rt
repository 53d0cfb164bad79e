//! Walking along the places of a part.
ghost use Rattle.std.specs.Prelude.{◌≡◌, ◌*◌, ◌<◌, ◌-◌, ℕ, IsTrue, length, slice_index, true};
ghost use Rattle.reo_net_base.specs.declared.mark.Mark.{Mark as EndMark};
ghost use Rattle.reo_net_base.specs.Net.{net_of};
ghost use Rattle.reo_net_base.specs.Sides.{side_count};
ghost use Rattle.reo_net_laws.specs.Knots.{AreKnots, in_knot, knot_count};
ghost use Rattle.reo_net_laws.specs.JamRows.{jam_rows};
ghost use Rattle.reo_mark_sets.specs.PlainMarks.{has, open_at, partner};
ghost use Rattle.reo_mark_search.specs.Fitting.{AreMet, ArePinned};
ghost use Rattle.reo_mark_search.specs.MarkFinding.{AreRowsElsewhere};
ghost use Rattle.reo_mark_search.specs.Places.{lead_places, class_places, row_places};
ghost use Rattle.reo_mark_search.specs.Searched.{IsSearched, in_part, part_sides};
ghost use Rattle.reo_mark_search.specs.Walking.{GoesOn};

use crate::searched::Searched;
use crate::seats::seat_at;
use crate::taking::{class_at, row_at};
use reo_knots::Knots;
use reo_mark_sets::MarkSets;
use reo_net_base::Primitive;
use reo_net_circuit::Circuit;
use reo_values::List;

/// Takes the least class at each side of a part that leads. The answer is whether some row is left
/// at each side. Where it is not, not all were gone to.
pub(crate) fn lead_all<P: Primitive>(searched: &Searched<'_, P>, sets: &mut MarkSets) -> bool
    requires searched { IsSearched (net_of P.behaviour searched.now.circuit.now) searched.now }
    requires sets { length sets.old ≡ 2 * length searched.now.circuit.now.joints }
    ensures one_each { length sets.new ≡ length sets.old }
    ensures goes_on { let net = net_of P.behaviour searched.now.circuit.now in
        result ≡ true → GoesOn net (in_part searched.now)
        (lead_places net searched.now.turn (part_sides searched.now)) sets.old sets.new }
{
    searched.circuit.known();
    let sides = searched.knots.sides(searched.part);
    for index in 0..sides.len() {
        let side = sides[index];
        let owner = searched.circuit.owner(side);
        if searched
            .circuit
            .primitive(owner.primitive)
            .leads(owner.side)
            && !class_at(searched, sets, side)
        {
            return false;
        }
    }
    true
}

/// Takes the least class at each side of a part. The answer is whether some row is left at each
/// side. Where it is not, not all were gone to.
pub(crate) fn class_all<P: Primitive>(searched: &Searched<'_, P>, sets: &mut MarkSets) -> bool
    requires searched { IsSearched (net_of P.behaviour searched.now.circuit.now) searched.now }
    requires sets { length sets.old ≡ 2 * length searched.now.circuit.now.joints }
    ensures one_each { length sets.new ≡ length sets.old }
    ensures goes_on { let net = net_of P.behaviour searched.now.circuit.now in
        result ≡ true → GoesOn net (in_part searched.now)
        (class_places net searched.now.turn (part_sides searched.now)) sets.old sets.new }
{
    let sides = searched.knots.sides(searched.part);
    for index in 0..sides.len() {
        if !class_at(searched, sets, sides[index]) {
            return false;
        }
    }
    true
}

/// Takes the first row at each side of a part, and notes it. The answer is whether some row is left
/// at each side. Where it is not, not all were gone to.
pub(crate) fn row_all<P: Primitive>(
    searched: &Searched<'_, P>,
    sets: &mut MarkSets,
    rows: &mut List<u32>,
) -> bool
    requires searched { IsSearched (net_of P.behaviour searched.now.circuit.now) searched.now }
    requires sets { length sets.old ≡ 2 * length searched.now.circuit.now.joints }
    requires rows { length rows.old ≡ side_count (net_of P.behaviour searched.now.circuit.now) }
    ensures one_each { length sets.new ≡ length sets.old }
    ensures goes_on { let net = net_of P.behaviour searched.now.circuit.now in
        result ≡ true → GoesOn net (in_part searched.now)
        (row_places (part_sides searched.now)) sets.old sets.new }
    ensures pinned { let net = net_of P.behaviour searched.now.circuit.now in
        let sides = part_sides searched.now in
        result ≡ true
        → ArePinned net searched.now.spots.now sides (length sides) sets.new rows.new }
    ensures elsewhere { AreRowsElsewhere (in_part searched.now) rows.old rows.new }
{
    for index in 0..searched.knots.sides(searched.part).len() {
        if !row_at(searched, sets, index, rows) {
            return false;
        }
    }
    true
}

/// Whether some mark at each of some places meets one at the other end of its joint.
fn meets_at(sets: &MarkSets, places: &[usize]) -> bool
    requires places { (o : ℕ) → o < length places.now
        → slice_index places.now o < length sets.now }
    requires partners { (o : ℕ) → o < length places.now
        → partner (slice_index places.now o) < length sets.now }
    ensures { IsTrue result → (o : ℕ) → o < length places.now
        → (mark : EndMark) × (has (open_at sets.now (slice_index places.now o)) mark ≡ true) }
{
    for end in 0..places.len() {
        if !sets.open_at(places[end]).is_some() {
            return false;
        }
    }
    true
}

/// Whether some mark at each end of a part meets one at the other end of its joint.
pub(crate) fn meets_all<P: Primitive>(searched: &Searched<'_, P>, sets: &MarkSets) -> bool
    requires searched { IsSearched (net_of P.behaviour searched.now.circuit.now) searched.now }
    requires sets { length sets.now ≡ 2 * length searched.now.circuit.now.joints }
    ensures { let sides = part_sides searched.now in
        IsTrue result
        → AreMet (net_of P.behaviour searched.now.circuit.now) searched.now.spots.now sides
        (length sides) sets.now }
{
    searched.circuit.known();
    let sides = searched.knots.sides(searched.part);
    for index in 0..sides.len() {
        let seat = seat_at(searched, sides[index]);
        if !meets_at(sets, seat.places) {
            return false;
        }
    }
    true
}

/// Writes the jam row of each side of a part down.
pub(crate) fn jam_all<P: Primitive>(
    circuit: &Circuit<P>,
    knots: &Knots,
    part: usize,
    rows: &mut List<u32>,
)
    requires knots { AreKnots (net_of P.behaviour circuit.now) knots.now }
    requires part { part < knot_count knots.now }
    requires rows { length rows.old ≡ side_count (net_of P.behaviour circuit.now) }
    ensures here { let net = net_of P.behaviour circuit.now in
        (k : ℕ) → in_knot knots.now.numbers part k ≡ true → k < side_count net
        → slice_index rows.new k ≡ slice_index (jam_rows net) k }
    ensures elsewhere { AreRowsElsewhere (in_knot knots.now.numbers part) rows.old rows.new }
{
    circuit.known();
    let sides = knots.sides(part);
    for index in 0..sides.len() {
        let owner = circuit.owner(sides[index]);
        let count = circuit.primitive(owner.primitive).rows(owner.side);
        *rows.at_mut(sides[index]) = (count - 1) as u32;
    }
}

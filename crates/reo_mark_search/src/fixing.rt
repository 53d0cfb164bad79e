//! Sides at which one row is left.
ghost use Rattle.std.specs.Prelude.{◌≡◌, ◌+◌, ◌*◌, ◌<◌, length, true};
ghost use Rattle.reo_net_base.specs.Net.{net_of};
ghost use Rattle.reo_net_base.specs.Sides.{side_count};
ghost use Rattle.reo_mark_search.specs.MarkFinding.{AreRowsElsewhere};
ghost use Rattle.reo_mark_search.specs.Searched.{IsSearched, in_part, part_sides};
ghost use Rattle.reo_mark_search.specs.Walking.{AreFixed};

use crate::searched::Searched;
use crate::seats::seat_at;
use reo_mark_sets::MarkSets;
use reo_net_base::Primitive;
use reo_values::List;

/// Whether one row is left at a side, which is noted then.
fn fixed_at<P: Primitive>(
    searched: &Searched<'_, P>,
    sets: &MarkSets,
    index: usize,
    rows: &mut List<u32>,
) -> bool
    requires searched { IsSearched (net_of P.behaviour searched.now.circuit.now) searched.now }
    requires sets { length sets.now ≡ 2 * length searched.now.circuit.now.joints }
    requires index { index < length (part_sides searched.now) }
    requires rows { length rows.old ≡ side_count (net_of P.behaviour searched.now.circuit.now) }
    ensures fixed { let net = net_of P.behaviour searched.now.circuit.now in
        let inside = in_part searched.now in
        let sides = part_sides searched.now in
        result ≡ true → AreFixed net inside searched.now.spots.now sides index sets.now rows.old
        → AreFixed net inside searched.now.spots.now sides (index + 1) sets.now rows.new }
    ensures elsewhere { AreRowsElsewhere (in_part searched.now) rows.old rows.new }
{
    searched.circuit.known();
    let side = searched.knots.sides(searched.part)[index];
    let seat = seat_at(searched, side);
    match sets.fixed_row(seat.form, seat.places) {
        None => false,
        Some(row) => {
            *rows.at_mut(side) = row as u32;
            true
        }
    }
}

/// Whether one row is left at each side of a part. Then these are noted.
pub(crate) fn fixed_all<P: Primitive>(
    searched: &Searched<'_, P>,
    sets: &MarkSets,
    rows: &mut List<u32>,
) -> bool
    requires searched { IsSearched (net_of P.behaviour searched.now.circuit.now) searched.now }
    requires sets { length sets.now ≡ 2 * length searched.now.circuit.now.joints }
    requires rows { length rows.old ≡ side_count (net_of P.behaviour searched.now.circuit.now) }
    ensures fixed { let sides = part_sides searched.now in
        result ≡ true → AreFixed (net_of P.behaviour searched.now.circuit.now)
        (in_part searched.now) searched.now.spots.now sides (length sides) sets.now rows.new }
    ensures elsewhere { AreRowsElsewhere (in_part searched.now) rows.old rows.new }
{
    for index in 0..searched.knots.sides(searched.part).len() {
        if !fixed_at(searched, sets, index, rows) {
            return false;
        }
    }
    true
}

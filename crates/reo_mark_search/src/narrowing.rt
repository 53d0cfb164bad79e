//! Narrowing a part.
ghost use Rattle.std.specs.Prelude.{◌≡◌, ◌*◌, ◌<◌, length, true, false};
ghost use Rattle.reo_net_base.specs.Net.{net_of};
ghost use Rattle.reo_net_base.specs.Sides.{side_count};
ghost use Rattle.reo_mark_search.specs.Fitting.{AreReduced, HasNoRival};
ghost use Rattle.reo_mark_search.specs.Searched.{IsSearched, in_part};

use crate::searched::Searched;
use crate::seats::seat_at;
use reo_mark_sets::MarkSets;
use reo_net_base::Primitive;

/// Narrows at a side. The answer is whether some row of it works.
fn narrow_at<P: Primitive>(searched: &Searched<'_, P>, sets: &mut MarkSets, side: usize) -> bool
    requires searched { IsSearched (net_of P.behaviour searched.now.circuit.now) searched.now }
    requires sets { length sets.old ≡ 2 * length searched.now.circuit.now.joints }
    requires side { side < side_count (net_of P.behaviour searched.now.circuit.now) }
    requires here { in_part searched.now side ≡ true }
    ensures reduced { AreReduced (net_of P.behaviour searched.now.circuit.now)
        (in_part searched.now) sets.old sets.new }
    ensures none { result ≡ false → HasNoRival (net_of P.behaviour searched.now.circuit.now)
        (in_part searched.now) sets.old }
{
    searched.circuit.known();
    let seat = seat_at(searched, side);
    sets.narrow(seat.form, seat.places)
}

/// Narrows at a side if it is one of the part. The answer is whether some row of it works.
fn turn_to<P: Primitive>(searched: &Searched<'_, P>, sets: &mut MarkSets, side: usize) -> bool
    requires searched { IsSearched (net_of P.behaviour searched.now.circuit.now) searched.now }
    requires sets { length sets.old ≡ 2 * length searched.now.circuit.now.joints }
    ensures reduced { AreReduced (net_of P.behaviour searched.now.circuit.now)
        (in_part searched.now) sets.old sets.new }
    ensures none { result ≡ false → HasNoRival (net_of P.behaviour searched.now.circuit.now)
        (in_part searched.now) sets.old }
{
    if side >= searched.circuit.sides() {
        return true;
    }
    if searched.knots.knot_of(side) != searched.part {
        return true;
    }
    narrow_at(searched, sets, side)
}

/// Narrows at the sides that wait, until none waits any more. The answer is whether some row works
/// at each of them.
pub(crate) fn narrow_waiting<P: Primitive>(searched: &Searched<'_, P>, sets: &mut MarkSets) -> bool
    requires searched { IsSearched (net_of P.behaviour searched.now.circuit.now) searched.now }
    requires sets { length sets.old ≡ 2 * length searched.now.circuit.now.joints }
    ensures reduced { AreReduced (net_of P.behaviour searched.now.circuit.now)
        (in_part searched.now) sets.old sets.new }
    ensures none { result ≡ false → HasNoRival (net_of P.behaviour searched.now.circuit.now)
        (in_part searched.now) sets.old }
{
    for _ in 0..u64::MAX {
        match sets.next() {
            None => return true,
            Some(side) => if !turn_to(searched, sets, side) {
                sets.calm();
                return false;
            },
        }
    }
    true
}

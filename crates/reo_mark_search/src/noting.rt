//! Beginning with all marks.
ghost use Rattle.std.specs.Prelude.{◌≡◌, ◌+◌, ◌*◌, ◌<◌, ℕ, List as Listed, [], length, slice_index, slice_index_or, true};
ghost use Rattle.reo_net_base.specs.Net.{net_of};
ghost use Rattle.reo_net_base.specs.Sides.{side_count};
ghost use Rattle.reo_net_laws.specs.Knots.{AreKnots, in_knot, knot_count};
ghost use Rattle.reo_net_laws.specs.state_laws.States.{IsOpen};
ghost use Rattle.reo_mark_sets.specs.PlainMarks.{marks_at, all_marks};
ghost use Rattle.reo_mark_search.specs.Fitting.{Fits, IsRival, AreNoted, AreOpenSides, AreReset};
ghost use Rattle.reo_mark_search.specs.Spots.{AreSpots};

use crate::spots::places_at;
use reo_knots::Knots;
use reo_mark_sets::{MarkSets, is_usual};
use reo_net_base::{Form, Primitive};
use reo_net_circuit::Circuit;
use reo_values::List;

/// Notes the form of a side, and begins with all marks there. The answer is whether it was done:
/// the table of the side may be of no form, or some row may not let each item in.
fn note_at<P: Primitive>(
    circuit: &Circuit<P>,
    spots: &List<List<usize>>,
    forms: &mut List<Form>,
    sets: &mut MarkSets,
    side: usize,
) -> bool
    requires spots { AreSpots (net_of P.behaviour circuit.now) spots.now }
    requires forms { length forms.old ≡ side_count (net_of P.behaviour circuit.now) }
    requires sets { length sets.old ≡ 2 * length circuit.now.joints }
    requires side { side < side_count (net_of P.behaviour circuit.now) }
    ensures one_form { length forms.new ≡ length forms.old }
    ensures one_each { length sets.new ≡ length sets.old }
    ensures noted { let net = net_of P.behaviour circuit.now in
        result ≡ true → (sides : Listed ℕ) (n : ℕ) → slice_index sides n ≡ side
        → AreOpenSides net sides n forms.old → AreOpenSides net sides (n + 1) forms.new }
    ensures reset { let net = net_of P.behaviour circuit.now in
        result ≡ true → (sides : Listed ℕ) (n : ℕ) → slice_index sides n ≡ side
        → AreReset net spots.now sides n sets.old → AreReset net spots.now sides (n + 1) sets.new }
{
    circuit.known();
    let owner = circuit.owner(side);
    let primitive = circuit.primitive(owner.primitive);
    if !primitive.is_open(owner.side) {
        return false;
    }
    match primitive.form(owner.side) {
        None => false,
        Some(form) => {
            if !is_usual(form) {
                return false;
            }
            *forms.at_mut(side) = form;
            sets.begin(side, form, places_at(circuit, spots, owner, form));
            true
        }
    }
}

/// Notes the forms of the sides of a part, and begins with all marks there. The answer is whether
/// it was done.
pub(crate) fn note_all<P: Primitive>(
    circuit: &Circuit<P>,
    knots: &Knots,
    spots: &List<List<usize>>,
    forms: &mut List<Form>,
    sets: &mut MarkSets,
    part: usize,
) -> bool
    requires knots { AreKnots (net_of P.behaviour circuit.now) knots.now }
    requires part { part < knot_count knots.now }
    requires spots { AreSpots (net_of P.behaviour circuit.now) spots.now }
    requires forms { length forms.old ≡ side_count (net_of P.behaviour circuit.now) }
    requires sets { length sets.old ≡ 2 * length circuit.now.joints }
    ensures one_form { length forms.new ≡ length forms.old }
    ensures one_each { length sets.new ≡ length sets.old }
    ensures noted { let net = net_of P.behaviour circuit.now in
        result ≡ true → AreNoted net (in_knot knots.now.numbers part) forms.new }
    ensures lets_in { let net = net_of P.behaviour circuit.now in
        result ≡ true → IsOpen net (in_knot knots.now.numbers part) }
    ensures all { let net = net_of P.behaviour circuit.now in
        let inside = in_knot knots.now.numbers part in
        result ≡ true → (rows : Listed ℕ) → IsRival net inside rows
        → Fits net inside sets.new rows }
{
    circuit.known();
    let sides = knots.sides(part);
    for index in 0..sides.len() {
        if !note_at(circuit, spots, forms, sets, sides[index]) {
            return false;
        }
    }
    true
}

//! The primitives that are marked go on.
ghost use Rattle.std.specs.Prelude.{◌≡◌, ◌<◌, length};
ghost use Rattle.reo_net_base.specs.Colouring.{IsColouring};
ghost use Rattle.reo_net_base.specs.Net.{net_of};
ghost use Rattle.reo_net_base.specs.Shapes.{SameNetShape};
ghost use Rattle.reo_net_base.specs.Sides.{side_count};
ghost use Rattle.reo_net_base.specs.Step.{change_at, chosen_for, mouth_of, stepped, taken_for};
ghost use Rattle.reo_net_circuit.specs.found_ends.Ends.{AreEnds};
ghost use Rattle.reo_flows.specs.stepping.Changes.{CoverChanges};
ghost use Rattle.reo_flows.specs.stepping.Clearing.{ComesNoItem, MayBeCleared};

use crate::stepping::mouths::take_at_mouth;
use crate::stepping::one::chosen_for;
use reo_flags::Flags;
use reo_net_base::Primitive;
use reo_net_circuit::{Circuit, Ends};
use reo_values::{List, Value};

/// A primitive goes on by the rows of its sides and the item at its mouth, which is taken out. One
/// that keeps nothing stays as it is, and its item too.
#[inline(always)]
fn step_one<P: Primitive>(
    circuit: &mut Circuit<P>,
    ends: &Ends,
    rows: &[u32],
    items: &mut List<Option<Value>>,
    index: usize,
)
    requires ends { AreEnds (net_of P.behaviour circuit.old) ends.now }
    requires index { index < length circuit.old.primitives }
    requires rows { length rows.now ≡ side_count (net_of P.behaviour circuit.old) }
    requires items { length items.old ≡ length circuit.old.joints }
    ensures circuit { let old = circuit.old in let net = net_of P.behaviour old in
        let chosen = chosen_for net rows.now index in
        let taken = taken_for net items.old index in
        let primitives = change_at (λ p. P.settled p chosen taken) old.primitives index in
        circuit.new ≡ record old { primitives = primitives } }
    ensures shape { SameNetShape P.behaviour circuit.old circuit.new }
    ensures items { let mouth = mouth_of (net_of P.behaviour circuit.old) index in
        MayBeCleared mouth items.old items.new }
{
    if circuit.primitive(index).keeps() {
        let chosen = chosen_for(circuit, rows, index);
        if circuit.primitive(index).sides() == 2 {
            let taken = take_at_mouth(circuit, ends, items, index);
            circuit.settle(index, chosen, taken);
        } else {
            circuit.settle(index, chosen, None);
        }
    }
}

/// The round of a circuit with this colouring, where all primitives are marked that keep something
/// and of which some end flows: the marked ones go on, each by the rows of its sides and the item
/// at its mouth, and all others stay, as they do in the whole round. No item comes, and the shape
/// of the circuit stays. This takes no memory.
pub fn step_marked<P: Primitive>(
    circuit: &mut Circuit<P>,
    ends: &Ends,
    rows: &[u32],
    items: &mut List<Option<Value>>,
    marks: &Flags,
)
    requires ends { AreEnds (net_of P.behaviour circuit.old) ends.now }
    requires colouring { IsColouring (net_of P.behaviour circuit.old) rows.now items.old }
    requires marks { CoverChanges P.behaviour P.lasting circuit.old rows.now marks.now }
    ensures circuit { let old = circuit.old in
        let primitives = stepped P.behaviour P.settled old rows.now items.old in
        circuit.new ≡ record old { primitives = primitives } }
    ensures shape { SameNetShape P.behaviour circuit.old circuit.new }
    ensures items { ComesNoItem items.old items.new }
{
    circuit.known();
    let mut index = marks.next_set(0);
    while index < marks.len() {
        step_one(circuit, ends, rows, items, index);
        index = marks.next_set(index + 1);
    }
}

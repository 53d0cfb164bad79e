//! How many choices of values the loop joints of a part have at most.
ghost use Rattle.std.specs.Prelude.{◌≡◌, ◌<◌, ◌+◌, ◌↔◌, ℕ, IfSome, Contains, length, slice_index, map};
ghost use Rattle.reo_net_base.specs.Net.{net_of};
ghost use Rattle.reo_net_circuit.specs.found_ends.Ends.{AreEnds};
ghost use Rattle.reo_net_laws.specs.Knots.{AreKnots, in_knot, knot_count};
ghost use Rattle.reo_joint_values.specs.Many.{IsJointIn};
ghost use Rattle.reo_weights.specs.Weights.{product_of};
ghost use Rattle.reo_item_bounds.specs.Bounds.{HasBounds};
ghost use Rattle.reo_item_bounds.specs.Kept.{AreKeptBounds};

use crate::kept::Bounds;
use reo_knots::Knots;
use reo_net_base::Primitive;
use reo_net_circuit::{Circuit, Ends};

/// The greatest product that is gone on with.
const MOST: u64 = 1_000_000_000_000_000;

/// The product of what is noted for some joints, each with the four values without flow, or `None`
/// where it is too great.
fn product(bounds: &[u64], joints: &[usize]) -> Option<u64>
    requires { (m : ℕ) → m < length joints.now
        → slice_index joints.now m < length bounds.now }
    ensures { IfSome result (λ product.
        product_of (map (λ j. slice_index bounds.now j + 4) joints.now) ≡ product) }
{
    let mut product: u64 = 1;
    for index in 0..joints.len() {
        let bound = bounds[joints[index]];
        if bound > 256 || product > MOST {
            return None;
        }
        product *= bound + 4;
    }
    Some(product)
}

impl Bounds {
    /// The product at the loop joints of a part, if what is noted for its joints are bounds, and it
    /// is not more than is wanted.
    fn choices<P: Primitive>(
        &mut self,
        circuit: &Circuit<P>,
        ends: &Ends,
        knots: &Knots,
        part: usize,
        joints: &[usize],
        wanted: u64,
    ) -> Option<u64>
        requires knots { AreKnots (net_of P.behaviour circuit.now) knots.now }
        requires part { part < knot_count knots.now }
        requires ends { AreEnds (net_of P.behaviour circuit.now) ends.now }
        requires joints { let net = net_of P.behaviour circuit.now in (j : ℕ)
            → Contains joints.now j ↔ IsJointIn net (in_knot knots.now.numbers part) j }
        requires kept { AreKeptBounds (net_of P.behaviour circuit.now) self.old }
        ensures kept { AreKeptBounds (net_of P.behaviour circuit.now) self.new }
        ensures found { let net = net_of P.behaviour circuit.now in
            IfSome result (HasBounds net (in_knot knots.now.numbers part)) }
    {
        circuit.known();
        if !self.are_bounds(circuit, ends, joints) {
            return None;
        }
        match product(self.bounds.as_slice(), knots.loop_joints(part)) {
            Some(choices) if choices <= wanted => Some(choices),
            _ => None,
        }
    }

    /// How many choices of values the loop joints of a part have at most, told by the tables of its
    /// sides in their present states; the joints of the part stand in an order in which items can
    /// be found. `None` says that no bound is known: some side has no form, or the bound of a joint
    /// is above 256, or the product is too great.
    ///
    /// What was found before is kept where it does, and grows where it does not. Where it comes to
    /// more than so many choices are wanted at most, it is found anew. This takes no memory.
    pub fn most_choices<P: Primitive>(
        &mut self,
        circuit: &Circuit<P>,
        ends: &Ends,
        knots: &Knots,
        part: usize,
        joints: &[usize],
        wanted: u64,
    ) -> Option<u64>
        requires knots { AreKnots (net_of P.behaviour circuit.now) knots.now }
        requires part { part < knot_count knots.now }
        requires ends { AreEnds (net_of P.behaviour circuit.now) ends.now }
        requires joints { let net = net_of P.behaviour circuit.now in (j : ℕ)
            → Contains joints.now j ↔ IsJointIn net (in_knot knots.now.numbers part) j }
        requires kept { AreKeptBounds (net_of P.behaviour circuit.now) self.old }
        ensures kept { AreKeptBounds (net_of P.behaviour circuit.now) self.new }
        ensures found { let net = net_of P.behaviour circuit.now in
            IfSome result (HasBounds net (in_knot knots.now.numbers part)) }
    {
        circuit.known();
        if let Some(choices) = self.choices(circuit, ends, knots, part, joints, wanted) {
            return Some(choices);
        }
        if self.note(circuit, ends, joints, true) {
            if let Some(choices) = self.choices(circuit, ends, knots, part, joints, wanted) {
                return Some(choices);
            }
        }
        if !self.note(circuit, ends, joints, false) {
            return None;
        }
        self.choices(circuit, ends, knots, part, joints, u64::MAX)
    }
}

//! What is noted for one joint.
ghost use Rattle.std.specs.Prelude.{◌≡◌, ◌<◌, ◌≤◌, IsTrue, IfSome, length, slice_index};
ghost use Rattle.reo_net_base.specs.Net.{net_of};
ghost use Rattle.reo_net_circuit.specs.found_ends.Ends.{AreEnds};
ghost use Rattle.reo_item_bounds.specs.Bounds.{IsBoundAt};
ghost use Rattle.reo_item_bounds.specs.Kept.{HasNumber};

use crate::shares::shared;
use reo_net_base::Primitive;
use reo_net_circuit::{Circuit, Ends};

/// What is noted for a joint of which no bound is known.
pub(crate) const MANY: u64 = 257;

/// The number of the form of the side that gives at a joint, where it has a form.
pub(crate) fn number_at<P: Primitive>(circuit: &Circuit<P>, joint: usize) -> Option<u32>
    requires { joint < length circuit.now.joints }
    ensures { IfSome result (HasNumber (net_of P.behaviour circuit.now) joint) }
{
    circuit.known();
    let giver = circuit.joint(joint).giver;
    let primitive = circuit.primitive(giver.primitive);
    let side = primitive.side_of(giver.end);
    match primitive.form(side) {
        None => None,
        Some(form) => Some(form.number()),
    }
}

/// What the rows of a joint's giver bring by the numbers that are noted, at most 257.
pub(crate) fn brought<P: Primitive>(
    circuit: &Circuit<P>,
    ends: &Ends,
    bounds: &[u64],
    joint: usize,
) -> u64
    requires ends { AreEnds (net_of P.behaviour circuit.now) ends.now }
    requires one_each { length bounds.now ≡ length circuit.now.joints }
    requires joint { joint < length circuit.now.joints }
    ensures { result ≤ 257 }
{
    circuit.known();
    let giver = circuit.joint(joint).giver;
    shared(circuit, ends, bounds, giver)
        .unwrap_or(MANY)
        .min(MANY)
}

/// Whether what is noted for a joint is a bound.
pub(crate) fn is_bound<P: Primitive>(
    circuit: &Circuit<P>,
    ends: &Ends,
    bounds: &[u64],
    joint: usize,
) -> bool
    requires ends { AreEnds (net_of P.behaviour circuit.now) ends.now }
    requires one_each { length bounds.now ≡ length circuit.now.joints }
    requires joint { joint < length circuit.now.joints }
    ensures { let net = net_of P.behaviour circuit.now in
        IsTrue result → IsBoundAt net (slice_index bounds.now) joint }
{
    circuit.known();
    let giver = circuit.joint(joint).giver;
    match shared(circuit, ends, bounds, giver) {
        None => false,
        Some(sum) => sum <= bounds[joint] && bounds[joint] < MANY,
    }
}

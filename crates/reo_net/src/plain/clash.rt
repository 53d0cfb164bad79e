//! Rows of the chosen sides that no colouring has.
ghost use Rattle.std.specs.Prelude.{◌≡◌, length, true, false};
ghost use Rattle.reo_net_base.specs.Net.{net_of};
ghost use Rattle.reo_net_base.specs.Sides.{side_count, AreRowsOf};
ghost use Rattle.reo_net_base.specs.Colouring.{JointMatches, RowsFit};
ghost use Rattle.reo_net_base.specs.Wired.{IsEnd};
ghost use Rattle.reo_net.specs.plain.Chosen.{AllChosen, IsBetween, NoneAgrees};

use reo_net_base::{Joint, Primitive, marks_match};
use reo_net_circuit::Circuit;

/// Whether a joint does not match, where both of its sides are chosen.
fn clashes_at<P: Primitive>(
    circuit: &Circuit<P>,
    rows: &[u32],
    chosen: &[bool],
    joint: Joint,
) -> bool
    requires giver { IsEnd (net_of P.behaviour circuit.now).primitives joint.giver }
    requires taker { IsEnd (net_of P.behaviour circuit.now).primitives joint.taker }
    requires rows { AreRowsOf (net_of P.behaviour circuit.now) rows.now }
    requires chosen { length chosen.now ≡ side_count (net_of P.behaviour circuit.now) }
    ensures between { result ≡ true → IsBetween (net_of P.behaviour circuit.now) chosen.now joint }
    ensures clash { let net = net_of P.behaviour circuit.now in
        result ≡ true → JointMatches net rows.now joint → ⊥ }
    ensures match_ { let net = net_of P.behaviour circuit.now in
        result ≡ false → IsBetween net chosen.now joint → JointMatches net rows.now joint }
{
    if !chosen[circuit.side_of(joint.giver)] || !chosen[circuit.side_of(joint.taker)] {
        return false;
    }
    let giver = circuit.mark_at(rows, joint.giver);
    let taker = circuit.mark_at(rows, joint.taker);
    !marks_match(giver, taker)
}

/// Whether some joint between the chosen sides does not match by their rows.
pub(crate) fn clashes<P: Primitive>(circuit: &Circuit<P>, rows: &[u32], chosen: &[bool]) -> bool
    requires rows { AreRowsOf (net_of P.behaviour circuit.now) rows.now }
    requires chosen { length chosen.now ≡ side_count (net_of P.behaviour circuit.now) }
    ensures clash { result ≡ true
        → NoneAgrees (net_of P.behaviour circuit.now) chosen.now rows.now }
    ensures fit { let net = net_of P.behaviour circuit.now in
        result ≡ false → AllChosen net chosen.now → RowsFit net rows.now }
{
    circuit.known();
    for index in 0..circuit.joint_count() {
        if clashes_at(circuit, rows, chosen, circuit.joint(index)) {
            return true;
        }
    }
    false
}

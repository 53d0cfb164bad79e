//! The side to choose next.
ghost use Rattle.std.specs.Prelude.{◌≡◌, length, IfSome, MatchOption};
ghost use Rattle.reo_net_base.specs.Net.{net_of};
ghost use Rattle.reo_net_base.specs.Sides.{side_count};
ghost use Rattle.reo_net_base.specs.Wired.{IsEnd};
ghost use Rattle.reo_net.specs.plain.Chosen.{AllChosen, IsLeft};

use reo_net_base::{Joint, Primitive};
use reo_net_circuit::Circuit;

/// The side of a joint that is left, where its other side is chosen.
fn linked_by<P: Primitive>(circuit: &Circuit<P>, chosen: &[bool], joint: Joint) -> Option<usize>
    requires giver { IsEnd (net_of P.behaviour circuit.now).primitives joint.giver }
    requires taker { IsEnd (net_of P.behaviour circuit.now).primitives joint.taker }
    requires chosen { length chosen.now ≡ side_count (net_of P.behaviour circuit.now) }
    ensures { IfSome result (IsLeft (net_of P.behaviour circuit.now) chosen.now) }
{
    let giver = circuit.side_of(joint.giver);
    let taker = circuit.side_of(joint.taker);
    if chosen[giver] && !chosen[taker] {
        return Some(taker);
    }
    if chosen[taker] && !chosen[giver] {
        return Some(giver);
    }
    None
}

/// A side that is left and that a joint links to a chosen one.
fn linked<P: Primitive>(circuit: &Circuit<P>, chosen: &[bool]) -> Option<usize>
    requires { length chosen.now ≡ side_count (net_of P.behaviour circuit.now) }
    ensures { IfSome result (IsLeft (net_of P.behaviour circuit.now) chosen.now) }
{
    circuit.known();
    for index in 0..circuit.joint_count() {
        if let Some(side) = linked_by(circuit, chosen, circuit.joint(index)) {
            return Some(side);
        }
    }
    None
}

/// The first side that is left.
fn first_left<P: Primitive>(circuit: &Circuit<P>, chosen: &[bool]) -> Option<usize>
    requires { length chosen.now ≡ side_count (net_of P.behaviour circuit.now) }
    ensures { let net = net_of P.behaviour circuit.now in
        MatchOption result (AllChosen net chosen.now) (IsLeft net chosen.now) }
{
    for side in 0..circuit.sides() {
        if !chosen[side] {
            return Some(side);
        }
    }
    None
}

/// A side that is left, one that a joint links to a chosen side before all others: `None` exactly
/// where all sides are chosen.
pub(crate) fn next_side<P: Primitive>(circuit: &Circuit<P>, chosen: &[bool]) -> Option<usize>
    requires { length chosen.now ≡ side_count (net_of P.behaviour circuit.now) }
    ensures { let net = net_of P.behaviour circuit.now in
        MatchOption result (AllChosen net chosen.now) (IsLeft net chosen.now) }
{
    match linked(circuit, chosen) {
        Some(side) => Some(side),
        None => first_left(circuit, chosen),
    }
}

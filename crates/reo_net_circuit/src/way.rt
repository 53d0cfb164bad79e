//! Each joint is to go from an end that gives to an end that takes in.
ghost use Rattle.std.specs.Prelude.{◌≡◌, ◌<◌, MatchOption, map, length, slice_index_or, true, false};
ghost use Rattle.reo_net_base.specs.Net.{net_of};
ghost use Rattle.reo_net_circuit.specs.Parts.{wiring_of, AreJoints};
ghost use Rattle.reo_net_circuit.specs.Fault.{AllRight, IsWayFault};

use crate::parts::{joint_at, primitive_at};
use reo_net_base::{Joint, Primitive};

/// The least joint whose giver takes in or whose taker does not.
pub fn way_fault<P: Primitive>(primitives: &[P], joints: &[Joint]) -> Option<usize>
    requires { AreJoints (net_of P.behaviour (wiring_of primitives.now 0 joints.now)) }
    ensures { MatchOption result
        (AllRight (net_of P.behaviour (wiring_of primitives.now 0 joints.now)))
        (IsWayFault (net_of P.behaviour (wiring_of primitives.now 0 joints.now))) }
{
    for index in 0..joints.len() {
        let joint = joint_at(joints, index);
        let giver = primitive_at(primitives, joint.giver.primitive).takes_in(joint.giver.end);
        let taker = primitive_at(primitives, joint.taker.primitive).takes_in(joint.taker.end);
        if giver || !taker {
            return Some(index);
        }
    }
    None
}

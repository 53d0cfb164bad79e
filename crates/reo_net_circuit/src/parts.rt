//! What a circuit is made from: primitives, a number of ports and joints.
ghost use Rattle.std.specs.Prelude.{◌≡◌, ◌<◌, ◌≤◌, ◌↔◌, IsTrue, IfOk, map, length, replicate, slice_index_or};
ghost use Rattle.reo_net_base.specs.declared.joint.Joint.{Joint as JointEnds};
ghost use Rattle.reo_net_base.specs.Net.{net_of, behaviour_at};
ghost use Rattle.reo_net_base.specs.Wired.{IsEnd, IsPort, ArePorts};
ghost use Rattle.reo_net_circuit.specs.Parts.{wiring_of, AreJoints};

use reo_net_base::{End, Joint, Primitive};
use reo_values::{List, NoMemory};
use std::alloc::Global;

/// One of the primitives.
pub fn primitive_at<P: Primitive>(primitives: &[P], index: usize) -> &P
    requires { index < length (map P.behaviour primitives.now) }
    ensures { P.behaviour result.now ≡ behaviour_at (map P.behaviour primitives.now) index }
{
    &primitives[index]
}

/// One of the joints.
pub fn joint_at(joints: &[Joint], index: usize) -> Joint
    requires { index < length joints.now }
    ensures { (d : JointEnds) → slice_index_or joints.now index d ≡ result }
{
    joints[index]
}

/// The same number so many times. `NoMemory` is out of memory.
pub fn repeated(alloc: Global, number: usize, count: usize) -> Result<Vec<usize>, NoMemory>
    ensures { IfOk result (λ list. list.items ≡ replicate count number) }
{
    match vec![in alloc; number; count] {
        Ok(list) => Ok(list),
        Err(_) => Err(NoMemory),
    }
}

/// Whether there is an end.
fn is_end<P: Primitive>(primitives: &[P], end: End) -> bool
    ensures { IsTrue result ↔ IsEnd (map P.behaviour primitives.now) end }
{
    end.primitive < primitives.len() && end.end < primitive_at(primitives, end.primitive).ends()
}

/// Whether each joint is between ends that there are.
fn are_joints<P: Primitive>(primitives: &[P], joints: &[Joint]) -> bool
    ensures { IsTrue result
        ↔ AreJoints (net_of P.behaviour (wiring_of primitives.now 0 joints.now)) }
{
    for index in 0..joints.len() {
        let joint = joint_at(joints, index);
        if !is_end(primitives, joint.giver) || !is_end(primitives, joint.taker) {
            return false;
        }
    }
    true
}

/// Whether a primitive can be a port: it has one side and one end.
fn is_port<P: Primitive>(primitive: &P) -> bool
    ensures { IsTrue result ↔ IsPort (P.behaviour primitive.now) }
{
    primitive.sides() == 1 && primitive.ends() == 1
}

/// Whether the first so many primitives can be ports.
fn are_ports<P: Primitive>(primitives: &[P], ports: usize) -> bool
    ensures { IsTrue result ↔ ArePorts (map P.behaviour primitives.now) ports }
{
    if ports > primitives.len() {
        return false;
    }
    for index in 0..ports {
        if !is_port(primitive_at(primitives, index)) {
            return false;
        }
    }
    true
}

/// Whether a circuit can be made from these, if it has no fault: each of the first `ports`
/// primitives has one side and one end, and joints name ends that there are.
pub fn are_parts<P: Primitive>(primitives: &[P], ports: usize, joints: &[Joint]) -> bool
    ensures { IsTrue result
        ↔ (ArePorts (map P.behaviour primitives.now) ports
        × AreJoints (net_of P.behaviour (wiring_of primitives.now 0 joints.now))) }
{
    are_ports(primitives, ports) && are_joints(primitives, joints)
}

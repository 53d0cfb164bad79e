//! Tables that find the joint of a mouth and the joint of a port.
ghost use Rattle.std.specs.Prelude.{◌≡◌, ℕ, ◌<◌, ◌==◌, ◌&&◌, cond, IfOk, map, length, slice_index};
ghost use Rattle.reo_net_base.specs.Net.{net_of, behaviour_at, end_eq, end_of, is_at};
ghost use Rattle.reo_net_base.specs.Wired.{IsEnd};
ghost use Rattle.reo_net_base.specs.Step.{is_mouth};
ghost use Rattle.reo_net_circuit.specs.Parts.{wiring_of, AreJoints};
ghost use Rattle.reo_net_circuit.specs.CircuitTables.{AreMouths, ArePortJoints};

use crate::parts::{joint_at, primitive_at, repeated};
use reo_net_base::{End, Joint, Primitive};
use reo_values::{List, NoMemory};
use std::alloc::Global;

/// Whether a joint goes to the mouth of a primitive with two sides.
fn is_mouth<P: Primitive>(primitives: &[P], joint: Joint) -> bool
    requires { IsEnd (map P.behaviour primitives.now) joint.taker }
    ensures { result ≡ is_mouth
        (behaviour_at
        (map P.behaviour primitives.now) joint.taker.primitive) joint.taker.primitive joint }
{
    let primitive = primitive_at(primitives, joint.taker.primitive);
    primitive.sides() == 2 && primitive.side_of(joint.taker.end) == 0
}

/// The first place so far, where this one may be it.
fn first_so_far(is: bool, old: usize, none: usize, place: usize) -> usize
    ensures { result ≡ cond is (cond (old == none) place old) old }
{
    if is && old == none { place } else { old }
}

/// The joints at the mouths of all primitives. `NoMemory` is out of memory.
pub fn mouth_table<P: Primitive>(
    alloc: Global,
    primitives: &[P],
    joints: &[Joint],
) -> Result<List<usize>, NoMemory>
    requires { AreJoints (net_of P.behaviour (wiring_of primitives.now 0 joints.now)) }
    ensures { IfOk result
        (λ mouths. AreMouths (net_of P.behaviour (wiring_of primitives.now 0 joints.now)) mouths) }
{
    let none = joints.len();
    let mut mouths = repeated(alloc, none, primitives.len())?;
    for index in 0..joints.len() {
        let joint = joint_at(joints, index);
        let old = mouths[joint.taker.primitive];
        let first = first_so_far(is_mouth(primitives, joint), old, none, index);
        mouths[joint.taker.primitive] = first;
    }
    Ok(List::from_vec(mouths))
}

/// Notes a joint at an end, where it is the first at the end 0 of its primitive.
fn note_end(table: &mut [usize], end: End, none: usize, joint: usize)
    requires { end.primitive < length table.old }
    ensures { (i : ℕ) → i < length table.old → slice_index table.new i
        ≡ cond (end_eq end (end_of i 0))
        (cond (slice_index table.old i == none) joint (slice_index table.old i))
        (slice_index table.old i) }
{
    let old = table[end.primitive];
    table[end.primitive] = first_so_far(end.end == 0, old, none, joint);
}

/// Notes a joint at both its ends.
fn note_joint(table: &mut [usize], joint: Joint, none: usize, index: usize)
    requires giver { joint.giver.primitive < length table.old }
    requires taker { joint.taker.primitive < length table.old }
    requires index { index < none }
    ensures { (i : ℕ) → i < length table.old → slice_index table.new i
        ≡ cond (is_at (end_of i 0) joint)
        (cond (slice_index table.old i == none) index (slice_index table.old i))
        (slice_index table.old i) }
{
    note_end(table, joint.giver, none, index);
    note_end(table, joint.taker, none, index);
}

/// The joints at the end 0 of all primitives. `NoMemory` is out of memory.
pub fn port_table<P: Primitive>(
    alloc: Global,
    primitives: &[P],
    joints: &[Joint],
) -> Result<List<usize>, NoMemory>
    requires { AreJoints (net_of P.behaviour (wiring_of primitives.now 0 joints.now)) }
    ensures { IfOk result
        (λ table. ArePortJoints
        (net_of P.behaviour (wiring_of primitives.now 0 joints.now)) table) }
{
    let none = joints.len();
    let mut table = repeated(alloc, none, primitives.len())?;
    for index in 0..joints.len() {
        let joint = joint_at(joints, index);
        note_joint(&mut table, joint, none, index);
    }
    Ok(List::from_vec(table))
}

//! What a search asks of its sets, looked at before it.
ghost use Rattle.std.specs.Prelude.{◌≡◌, ◌<◌, ◌+◌, [], IsTrue, length, slice_index_or};
ghost use Rattle.reo_net_laws.specs.Knots.{knot_count};
ghost use Rattle.reo_rows.specs.Sets.{code_of};
ghost use Rattle.reo_yardstick.specs.Bounds.{AreBelow, AreWithin, AreSingle};

use reo_joint_values::JointValue;
use reo_knots::Knots;
use reo_propagate::Sets;
use reo_values::{List, Value};

/// Whether a value has no flow, or the number of one of so many items.
fn is_below(value: JointValue, count: usize) -> bool
    ensures { IsTrue result → code_of value < count + 4 }
{
    match value {
        JointValue::Flow(number) => (number as usize) < count,
        _ => true,
    }
}

/// Whether that is so of all these values.
fn are_below(values: &[JointValue], count: usize) -> bool
    ensures { IsTrue result → AreBelow values.now (count + 4) }
{
    for value in values {
        if !is_below(*value, count) {
            return false;
        }
    }
    true
}

/// Whether there is a set for each joint, and no other item has a number in it.
pub fn are_within(items: &[List<Value>], sets: &Sets) -> bool
    ensures { IsTrue result → AreWithin items.now sets.now.values }
{
    if sets.values.len() != items.len() {
        return false;
    }
    for joint in 0..items.len() {
        if !are_below(sets.values.at(joint).as_slice(), items[joint].len()) {
            return false;
        }
    }
    true
}

/// Whether a set has at most one value.
fn is_single(sets: &Sets, joint: usize) -> bool
    ensures { IsTrue result → length (slice_index_or sets.now.values joint []) < 2 }
{
    joint < sets.values.len() && sets.values.at(joint).len() < 2
}

/// Whether the sets of these joints have at most one value each.
fn are_single(sets: &Sets, joints: &[usize]) -> bool
    ensures { IsTrue result → AreSingle sets.now.values (length joints.now) joints.now }
{
    for index in 0..joints.len() {
        if !is_single(sets, joints[index]) {
            return false;
        }
    }
    true
}

/// Whether the sets of a knot's loop joints have at most one value each.
pub fn loops_are_single(knots: &Knots, sets: &Sets, knot: usize) -> bool
    requires { knot < knot_count knots.now }
    ensures { let joints = slice_index_or knots.now.loop_joints knot [] in
        IsTrue result → AreSingle sets.now.values (length joints) joints }
{
    are_single(sets, knots.loop_joints(knot))
}

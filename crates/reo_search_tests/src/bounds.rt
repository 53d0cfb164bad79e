//! What a search asks of its sets, looked at before it.
ghost use Rattle.std.specs.Prelude.{◌≡◌, ◌<◌, ◌+◌, ℕ, [], IsTrue, length, slice_index, slice_index_or};
ghost use Rattle.reo_rows.specs.Sets.{code_of};
ghost use Rattle.reo_search_tests.specs.Bounds.{AreBelow, IsWithin, AreWithin, AreSingle};

use reo_joint_values::JointValue;
use reo_propagate::Sets;
use reo_rows::FLOWS;
use reo_values::{List, Value};

/// The number of a value: the values without flow have the first four.
fn code_of(value: JointValue) -> usize
    ensures { result ≡ code_of value }
{
    match value {
        JointValue::RG => 0,
        JointValue::GR => 1,
        JointValue::GG => 2,
        JointValue::Jam => 3,
        JointValue::Flow(number) => number as usize + FLOWS,
    }
}

/// Whether the numbers of values are all below a bound.
fn are_below(values: &[JointValue], bound: usize) -> bool
    ensures { IsTrue result → AreBelow values.now bound }
{
    for value in values {
        if code_of(*value) >= bound {
            return false;
        }
    }
    true
}

/// Whether there are few items at a joint, and no other item has a number in its set.
fn is_within(items: &[List<Value>], sets: &Sets, joint: usize) -> bool
    requires items { joint < length items.now }
    requires sets { joint < length sets.now.values }
    ensures { IsTrue result → IsWithin items.now sets.now.values joint }
{
    let count = items[joint].len();
    count < 1000 && are_below(sets.values.at(joint).as_slice(), count + FLOWS)
}

/// Whether there is a set for each joint, and that is so at each.
pub fn are_within(items: &[List<Value>], sets: &Sets) -> bool
    ensures { IsTrue result → AreWithin items.now sets.now.values }
{
    if sets.values.len() != items.len() {
        return false;
    }
    for joint in 0..items.len() {
        if !is_within(items, sets, joint) {
            return false;
        }
    }
    true
}

/// Whether a set has at most one value.
fn is_single(sets: &Sets, joint: usize) -> bool
    ensures { IsTrue result → length (slice_index_or sets.now.values joint []) < 2 }
{
    joint < sets.values.len() && sets.values.at(joint).len() < 2
}

/// Whether the sets of these joints have at most one value each.
pub fn are_single(sets: &Sets, joints: &[usize]) -> bool
    ensures { IsTrue result → AreSingle sets.now.values (length joints.now) joints.now }
{
    for index in 0..joints.len() {
        if !is_single(sets, joints[index]) {
            return false;
        }
    }
    true
}

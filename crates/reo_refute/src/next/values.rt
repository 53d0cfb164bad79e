//! The values of a joint, by their places.
ghost use Rattle.std.specs.Prelude.{◌≡◌, ◌<◌, ◌∷◌, [], length, slice_index_or};
ghost use Rattle.reo_joint_values.specs.declared.value.JointValue.TheVariants.{RG, GR, GG, Jam};
ghost use Rattle.reo_refute_base.specs.Live.{values_of};
ghost use Rattle.reo_refute_live.specs.OpenBranch.{AreSmall};

use reo_joint_values::JointValue;
use reo_refute_base::LogLine;
use reo_values::{List, Value};

/// How many values a joint has.
pub(crate) fn value_count(lists: &[List<Value>], joint: usize) -> usize
    requires small { AreSmall lists.now }
    requires joint { joint < length lists.now }
    ensures { result ≡ length (values_of lists.now joint) }
{
    lists[joint].len() + 4
}

/// The value of this place among those in which nothing flows.
fn still_at(place: usize) -> JointValue
    ensures { result ≡ slice_index_or (RG ∷ GR ∷ GG ∷ Jam ∷ []) place Jam }
{
    match place {
        0 => JointValue::RG,
        1 => JointValue::GR,
        2 => JointValue::GG,
        _ => JointValue::Jam,
    }
}

/// The value of this place among those of a joint.
pub(crate) fn value_at(lists: &[List<Value>], joint: usize, place: usize) -> JointValue
    requires small { AreSmall lists.now }
    requires joint { joint < length lists.now }
    ensures { result ≡ slice_index_or (values_of lists.now joint) place Jam }
{
    let items = lists[joint].len();
    if place < items {
        JointValue::Flow(place as u32)
    } else {
        still_at(place - items)
    }
}

/// The place behind that of a value among those of its joint. The value may be any.
fn behind(items: usize, value: JointValue) -> usize {
    match value {
        JointValue::Flow(number) => (number as usize).saturating_add(1),
        JointValue::RG => items.saturating_add(1),
        JointValue::GR => items.saturating_add(2),
        JointValue::GG => items.saturating_add(3),
        JointValue::Jam => items.saturating_add(4),
    }
}

/// The place behind that of the value that goes by a line, among those of its joint; 0 for another
/// line.
pub(crate) fn after(lists: &[List<Value>], line: LogLine) -> usize {
    match line {
        LogLine::Drop(joint, value, _) => {
            let items = match lists.get(joint) {
                Some(list) => list.len(),
                None => 0,
            };
            behind(items, value)
        }
        _ => 0,
    }
}

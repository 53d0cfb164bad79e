//! Which values are live at a joint.
ghost use Rattle.std.specs.Prelude.{◌≡◌, ◌<◌, ◌&&◌, not, true, false, [], Contains, MatchOption, length};
ghost use Rattle.reo_joint_values.specs.declared.value.JointValue.{JointValue as Standing};
ghost use Rattle.reo_joint_values.specs.Values.{value_eq};
ghost use Rattle.reo_refute_base.specs.Live.{live_at};
ghost use Rattle.reo_refute_base.specs.measure.Owed.{AreTwo};
ghost use Rattle.reo_refute_live.specs.support.Families.{family_of};
ghost use Rattle.reo_refute_live.specs.OpenBranch.{IsOpen, AreSmall};
ghost use Rattle.reo_refute.specs.next.Next.{HasOne};

use crate::next::values::{value_at, value_count};
use reo_joint_values::JointValue;
use reo_refute_live::OpenBranch;
use reo_values::{List, Value};

/// The first value that is live at a joint, if there is one.
fn first_live(lists: &[List<Value>], live: &OpenBranch, joint: usize) -> Option<JointValue>
    requires open { IsOpen lists.now live.now }
    requires small { AreSmall lists.now }
    requires joint { joint < length lists.now }
    ensures { let here = live_at lists.now (family_of live.now.table) joint in
        MatchOption result (here ≡ []) (Contains here) }
{
    for place in 0..value_count(lists, joint) {
        let value = value_at(lists, joint, place);
        if live.is_live(lists, joint, value) {
            return Some(value);
        }
    }
    None
}

/// Whether a value is live at a joint, and is another than this.
fn is_other(
    lists: &[List<Value>],
    live: &OpenBranch,
    joint: usize,
    value: JointValue,
    first: JointValue,
) -> bool
    requires open { IsOpen lists.now live.now }
    requires joint { joint < length lists.now }
    ensures { result ≡ (family_of live.now.table joint value && not (value_eq value first)) }
{
    live.is_live(lists, joint, value) && value != first
}

/// Whether another value than this is live at a joint.
fn has_other(lists: &[List<Value>], live: &OpenBranch, joint: usize, first: JointValue) -> bool
    requires open { IsOpen lists.now live.now }
    requires small { AreSmall lists.now }
    requires joint { joint < length lists.now }
    ensures other { let here = live_at lists.now (family_of live.now.table) joint in
        result ≡ true → ((w : Standing) × Contains here w × (value_eq w first ≡ false)) }
    ensures none { let here = live_at lists.now (family_of live.now.table) joint in
        result ≡ false → (w : Standing) → Contains here w → w ≡ first }
{
    for place in 0..value_count(lists, joint) {
        if is_other(lists, live, joint, value_at(lists, joint, place), first) {
            return true;
        }
    }
    false
}

/// Whether two values are live at a joint.
pub(crate) fn has_two(lists: &[List<Value>], live: &OpenBranch, joint: usize) -> bool
    requires open { IsOpen lists.now live.now }
    requires small { AreSmall lists.now }
    requires joint { joint < length lists.now }
    ensures two { result ≡ true → AreTwo lists.now (family_of live.now.table) joint }
    ensures one { let family = family_of live.now.table in
        result ≡ false → (live_at lists.now family joint ≡ [] → ⊥) → HasOne lists.now family joint }
{
    match first_live(lists, live, joint) {
        None => false,
        Some(first) => has_other(lists, live, joint, first),
    }
}

//! The values that are live at a joint.
ghost use Rattle.std.specs.Prelude.{◌≡◌, ◌<◌, length, slice_index_or, []};
ghost use Rattle.reo_joint_values.specs.declared.value.JointValue.TheVariants.{Flow};
ghost use Rattle.reo_joint_values.specs.Values.{value_eq};
ghost use Rattle.reo_refute_base.specs.Live.{alone};
ghost use Rattle.reo_refute_live.specs.support.Families.{family_of, none_gone};

use reo_joint_values::JointValue;
use reo_values::List;

/// Which values of a joint are live.
#[derive(Drop)]
pub struct LiveAt {
    /// For each item, by its number, whether it may flow.
    pub flows: List<bool>,
    /// No flow, and the giver requires a reason.
    pub rg: bool,
    /// No flow, and the taker requires a reason.
    pub gr: bool,
    /// No flow, and both give a reason.
    pub gg: bool,
    /// Both ends jam.
    pub jam: bool,
}

/// Whether a value is the flow of the item of this number.
pub fn is_flow_of(number: usize, value: JointValue) -> bool
    ensures { result ≡ value_eq (Flow number) value }
{
    match value {
        JointValue::Flow(other) => number == other as usize,
        _ => false,
    }
}

/// Whether the item of this number may flow at a joint, where at the held joint one value alone is
/// live.
pub(crate) fn may_flow(
    live: &[LiveAt],
    held: usize,
    value: JointValue,
    joint: usize,
    number: usize,
) -> bool
    requires joint { joint < length live.now }
    requires number { number < length (slice_index_or live.now joint none_gone).flows }
    ensures { result ≡ alone (family_of live.now) held value joint (Flow number) }
{
    *live[joint].flows.at(number) && (joint != held || is_flow_of(number, value))
}

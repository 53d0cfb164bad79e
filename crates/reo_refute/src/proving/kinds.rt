//! Kinds of what can stand at a joint, and sets of them as bytes.
use reo_joint_values::JointValue;
use reo_refute_live::LiveAt;
use reo_values::List;

/// Some item flows.
const FLOW: u8 = 1;
/// The giver requires a reason, and the taker gives one.
const RG: u8 = 2;
/// The giver gives a reason, and the taker requires one.
const GR: u8 = 4;
/// Both give a reason.
const GG: u8 = 8;
/// Both ends jam.
const JAM: u8 = 16;
/// All kinds.
pub(crate) const ALL: u8 = 31;

/// The kind of a value.
pub(crate) fn kind_of(value: JointValue) -> u8 {
    match value {
        JointValue::Flow(_) => FLOW,
        JointValue::RG => RG,
        JointValue::GR => GR,
        JointValue::GG => GG,
        JointValue::Jam => JAM,
    }
}

/// The kinds that put a mark, by its byte, at the giver or at the taker of a joint.
pub(crate) fn kinds_with(mark: u8, gives: bool) -> u8 {
    match (mark, gives) {
        (1, _) => FLOW,
        (2, true) => GR | GG,
        (2, false) => RG | GG,
        (4, true) => RG,
        (4, false) => GR,
        (8, _) => JAM,
        _ => 0,
    }
}

/// The kind, if some value of it is live.
fn kind_if(live: bool, kind: u8) -> u8 {
    if live { kind } else { 0 }
}

/// Whether some flag is set.
fn has_set(flags: &[bool]) -> bool {
    for index in 0..flags.len() {
        if flags[index] {
            return true;
        }
    }
    false
}

/// The kinds of which some value is live.
pub(crate) fn live_kinds(live: &LiveAt) -> u8 {
    kind_if(has_set(live.flows.as_slice()), FLOW)
        | kind_if(live.rg, RG)
        | kind_if(live.gr, GR)
        | kind_if(live.gg, GG)
        | kind_if(live.jam, JAM)
}

//! What can stand at a joint.

/// What can stand at a joint: an item that flows, by its number, or no flow, by the marks of the
/// giver and of the taker, or jam. No other two marks match.
#[derive(Clone, Copy, Debug, PartialEq, Eq)]
pub enum JointValue {
    /// The item of this number flows.
    Flow(u32),
    /// No flow: the giver requires a reason, and the taker gives one.
    RG,
    /// No flow: the giver gives a reason, and the taker requires one.
    GR,
    /// No flow: both give a reason.
    GG,
    /// Both ends jam.
    Jam,
}

//! The marks of a joint.
use reo_net_base::Mark;

/// What the two primitives of a joint say of their ends there.
#[derive(Clone, Copy, Debug, PartialEq, Eq)]
pub struct JointMarks {
    /// The mark of the end from which items come.
    pub giver: Mark,
    /// That of the end to which they go.
    pub taker: Mark,
}

//! The lines of a log.
use reo_joint_values::JointValue;

/// A line of a log.
#[derive(Clone, Copy, Debug, PartialEq, Eq)]
pub enum LogLine {
    /// The part of the position of this number begins; all values are live again.
    At(usize),
    /// At the joint of this number the value has no support at the side of this number, and goes.
    Drop(usize, JointValue, usize),
    /// At the joint of this number no value is live: the branch is closed.
    Empty(usize),
    /// One branch follows for each value that is live at the joint of this number.
    Split(usize),
}

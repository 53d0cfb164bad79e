//! Items that flow, and steps.
#![tactic(auto)]

pub mod flowing;
pub mod stepping;

pub use flowing::{copy_over, put_flowing};
pub use stepping::{mark_flowing, mark_joint, step_marked};

//! Narrowing sets of joint values to the greatest supported ones.
#![tactic(auto)]

mod line;
mod narrowing;
mod queue;
mod restarting;
mod sets;
mod state;
mod thinning;
mod waking;

pub use line::Line;
pub use narrowing::propagate;
pub use queue::WaitingSides;
pub use reo_joint_values::JointValue;
pub use restarting::restart;
pub use sets::{Sets, begin_with, narrow};
pub use state::{State, begin};
pub use thinning::Loss;
pub use waking::wake;

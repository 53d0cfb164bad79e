//! The verification of traces: a trace is replayed line by line, with its own rows in place of the
//! first colourings.
#![tactic(auto)]

mod halt;
mod jams;
pub mod judging;
mod outcome;
mod replaying;
mod verifying;
mod witness;

pub use halt::Halt;
pub use judging::{Stop, begins, ends_as, plan_of, refusal_of};
pub use outcome::Outcome;
pub use reo_runs::{Refusal, Verdict};
pub use replaying::replay;
pub use verifying::verify_trace;
pub use witness::Witness;

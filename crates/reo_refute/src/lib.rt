//! Logs that show that rows are first are judged and made.
#![tactic(auto)]

pub mod check;
mod footing;
mod next;
pub mod proving;

pub use check::check_proof;
pub use proving::prove;

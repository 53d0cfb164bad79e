//! Runs of scripts on circuits that are fetched and read: their traces, and their proved texts.

mod proving;
mod running;

pub use proving::prove_circuit;
pub use running::run_circuit;

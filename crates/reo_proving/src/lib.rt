//! The run of a script on a circuit, with a log behind each round that shows that it is first.
#![tactic(auto)]

mod logging;
mod round;
mod run;

pub use run::prove_run;

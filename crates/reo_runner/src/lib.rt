//! A run of a script on a circuit, and its trace.
#![tactic(auto)]

pub mod at_ports;
mod ending;
mod outcome;
mod planning;
mod round;
mod runner;

pub use at_ports::{
    Engine, Exceeds, MadeRound, PlannedRound, carry_on, release_circuit, release_engine,
    release_players, release_run,
};
pub use outcome::{End2, Limits, Outcome};
pub use runner::run;

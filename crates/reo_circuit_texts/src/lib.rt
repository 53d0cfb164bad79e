//! What the texts of circuits say, of either version: definitions and laws.
#![tactic(auto)]

mod laws;

pub use laws::{circuit_names_are_plain, circuits_are_spelled, one_circuit_program};

//! Rounds of a run that an engine makes, and letting go what they are made with.

mod carrying;
mod release;

pub use carrying::carry_on;
pub use release::{release_circuit, release_engine, release_players, release_run};
pub use reo_engine::{Engine, Exceeds, MadeRound, PlannedRound};

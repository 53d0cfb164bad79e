//! Open circuits: gates to the surroundings in place of ports, and unit as the only item.
#![tactic(auto)]

mod circuit;
mod gate;
mod kinds;
mod opens;
mod port;
mod primitive;

pub use circuit::open_circuit;
pub use gate::{Gate, GateRows};
pub use opens::Open;

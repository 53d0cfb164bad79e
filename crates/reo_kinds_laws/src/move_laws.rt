//! Laws of the moves of a round. Each function is empty: its contract is a law.

mod laws;

pub use laws::{moves_are_flows, moves_are_offers};

//! The boundary tables of a circuit that is fetched and read.

mod listing;
mod tables;

pub use listing::list_circuit;

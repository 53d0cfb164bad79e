//! The filters of a circuit, and the ports of a part of an open circuit.

mod filters;
mod ports;

pub use filters::first_filter;
pub use ports::ports_of;

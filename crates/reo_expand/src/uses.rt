//! The names of connectors that items use, and with which numbers.

mod uses;

pub use uses::Uses;

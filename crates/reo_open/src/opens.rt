//! What stands in open circuits.
use crate::gate::Gate;
use reo_kinds::Kind;

/// A primitive of an open circuit.
#[derive(Drop)]
pub enum Open {
    /// At the border of the circuit, in place of a port.
    Border(Gate),
    /// In place of all else: a kind whose items are unit.
    Inner(Kind),
}

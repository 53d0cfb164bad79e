//! What a round does: one row for each side, one optional item for each joint.
use reo_values::{List, Value};

/// The rows of the sides of one primitive. With one side the second is 0.
#[derive(Clone, Copy, Debug, PartialEq, Eq)]
pub struct Chosen {
    pub first: usize,
    pub second: usize,
}

/// One row for each side, and one optional item for each joint.
#[derive(Drop)]
pub struct Colouring {
    pub rows: List<u32>,
    pub items: List<Option<Value>>,
}

/// An item that flows at a port in a round.
#[derive(Drop)]
pub struct Move {
    pub port: usize,
    pub item: Value,
}

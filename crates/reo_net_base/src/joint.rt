//! Ends of primitives, and the joints between them.

/// An end of a primitive: both are numbers from 0.
#[derive(Clone, Copy, Debug, PartialEq, Eq)]
pub struct End {
    pub primitive: usize,
    pub end: usize,
}

/// Two ends that are joined at a node: items leave the circuit's one primitive at the giver and
/// enter another at the taker.
#[derive(Clone, Copy, Debug, PartialEq, Eq)]
pub struct Joint {
    pub giver: End,
    pub taker: End,
}

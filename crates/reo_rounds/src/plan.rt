//! Rounds that are planned and made.
use reo_net_base::{Colouring, Move};
use reo_trace::RoundLine;
use reo_values::List;

/// What a round will be.
#[derive(Drop)]
pub struct Plan {
    /// A row for each side, and the items at the joints.
    pub colouring: Colouring,
    /// The ports that flow, in order, with their items.
    pub moves: List<Move>,
    /// Whether no end flows.
    pub idle: bool,
    /// How many sides jam.
    pub jammed: usize,
}

/// A round that is planned, and the line that shows it.
#[derive(Drop)]
pub struct PlannedRound {
    /// What the round will be.
    pub plan: Plan,
    /// Its line in a trace.
    pub line: RoundLine,
}

/// What a round was.
#[derive(Drop)]
pub struct Done {
    /// The ports that flowed, in order, with their items.
    pub moves: List<Move>,
    /// Whether no end flowed.
    pub idle: bool,
    /// How many sides jammed.
    pub jammed: usize,
}

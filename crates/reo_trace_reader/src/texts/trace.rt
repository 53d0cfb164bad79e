//! Traces, and their lines.
use reo_trace::{Ending, RoundLine};
use reo_values::List;

/// A whole trace.
#[derive(Drop)]
pub struct Trace {
    /// The round lines, from that of round 1 on.
    pub rounds: List<RoundLine>,
    /// How the run ended.
    pub ending: Ending,
}

/// One line of a trace.
#[derive(Drop)]
pub enum TraceLine {
    Round(RoundLine),
    Ending(Ending),
}

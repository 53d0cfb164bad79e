//! What the replay of all lines comes to.
use reo_trace::Ending;

/// What the replay of all lines of a trace comes to.
#[derive(Clone, Copy)]
pub struct Outcome {
    /// How the run is over after them, if it is.
    pub over: Option<Ending>,
    /// How many rounds they are.
    pub rounds: u64,
    /// How many of their cells are the jam row.
    pub jammed: u64,
}

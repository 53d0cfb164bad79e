//! What a round makes of a component.

/// What a round has made of a component.
#[derive(Clone, Copy, Debug, PartialEq, Eq)]
pub enum Step {
    /// Its action goes on, or it is done.
    Stays,
    /// Its action has ended.
    Moved,
    /// Its action's bound ran out without flow, and its offer at the port is gone.
    GaveUp { port: usize },
}

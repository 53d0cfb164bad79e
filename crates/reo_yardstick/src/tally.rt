//! What was compared.

/// How much was compared, and what came about.
#[derive(Drop)]
pub struct SearchTally {
    /// Texts that are no circuits, or too large ones.
    pub refused: u64,
    pub circuits: u64,
    pub rounds: u64,
    /// Rounds in which nothing flows.
    pub idle: u64,
    /// Rounds in which a side jams.
    pub jammed: u64,
    /// Parts, one in each round.
    pub parts: u64,
    /// Parts with loop joints.
    pub loops: u64,
    /// Parts of a weight above 1.
    pub heavy: u64,
    /// The greatest weight.
    pub greatest: u64,
    /// Parts that were arranged.
    pub arranged: u64,
}

/// Nothing was compared.
pub fn empty_tally() -> SearchTally {
    SearchTally {
        refused: 0,
        circuits: 0,
        rounds: 0,
        idle: 0,
        jammed: 0,
        parts: 0,
        loops: 0,
        heavy: 0,
        greatest: 0,
        arranged: 0,
    }
}

/// One more, where it is so.
pub fn count(number: &mut u64, so: bool) {
    if so {
        *number = number.wrapping_add(1);
    }
}

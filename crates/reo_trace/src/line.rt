//! What the lines of a trace say.
use reo_net_base::Move;
use reo_values::List;

/// The row of one side.
#[derive(Clone, Copy, Debug, PartialEq, Eq)]
pub enum Cell {
    /// The number of a row that is no jam row, from 0.
    Row(u32),
    /// The jam row.
    Jam,
}

/// The rows of one primitive.
#[derive(Clone, Copy, Debug, PartialEq, Eq)]
pub enum Entry {
    /// The row of its one side.
    One(Cell),
    /// The row of its mouth, and that of its tail.
    Two(Cell, Cell),
}

/// One round.
#[derive(Drop)]
pub struct RoundLine {
    /// The number of the round, from 1.
    pub round: u64,
    /// Whether no end flowed.
    pub idle: bool,
    /// What flowed at the ports, in the order of their numbers.
    pub moves: List<Move>,
    /// One entry for each primitive, in order.
    pub entries: List<Entry>,
}

/// How a run ended.
#[derive(Clone, Copy, Debug, PartialEq, Eq)]
pub enum Ending {
    /// Every component is done, after so many rounds.
    Done {
        rounds: u64,
    },
    /// The last of so many rounds was idle, and nothing more will come.
    Stuck {
        rounds: u64,
    },
    /// So many rounds were made, and no more are allowed.
    Limit {
        rounds: u64,
    },
    /// A part of the round of this number weighs more than the budget, and the round was not made.
    Spent {
        round: u64,
        knot: u64,
        weight: u64,
        budget: u64,
    },
    /// At a joint of a part of the round of this number too many items can stand, and the round was
    /// not made.
    Wide {
        round: u64,
        knot: u64,
    },
}

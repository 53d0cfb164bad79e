//! What is answered.
use crate::base::LineRefusal;
use reo_trace::RoundLine;

/// An answer: one line. Rounds and lines are counted from 1.
#[derive(Drop)]
pub enum Answer {
    /// The line of this number is refused, and changes nothing.
    Refused {
        line: u64,
        fault: LineRefusal,
    },
    /// A round was made, and this line shows it.
    Made {
        line: RoundLine,
    },
    /// Nothing further is judged. So many rounds were made.
    Ended {
        rounds: u64,
    },
    /// The round of this number cannot be planned, nor any thereafter: at a joint of this part too
    /// many items can stand.
    Wide {
        round: u64,
        knot: u64,
    },
    /// The round of this number cannot be planned, nor any thereafter: the weight of this part is
    /// above the budget.
    Spent {
        round: u64,
        knot: u64,
        weight: u64,
        budget: u64,
    },
}

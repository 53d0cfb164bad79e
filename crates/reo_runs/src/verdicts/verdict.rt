//! Verdicts, and why a trace is refused.
use reo_checker::Wrong;
use reo_values::Bytes;

/// Why a trace is refused: the first that is wrong with it.
#[derive(Drop)]
pub enum Refusal {
    /// The text is no trace, and this is its first wrong line, from 1.
    Line {
        line: u64,
    },
    /// The run was done or stuck before this round.
    Ended {
        round: u64,
    },
    /// The entries of this round are none of a colouring, for this cause. At a joint `node` is the
    /// flat name of the joint's node; otherwise it is empty.
    Round {
        round: u64,
        wrong: Wrong,
        node: Bytes,
    },
    /// The moves of this round are not those of its rows, or it is idle and does not say so, or
    /// says so and is not.
    Moves {
        round: u64,
    },
    /// The ending is not that of the run.
    End,
}

/// The verdict on a trace.
#[derive(Drop)]
pub enum Verdict {
    /// It is the trace of a run, in each round with some colouring: so many rounds, in which so
    /// many cells are the jam row.
    Verified { rounds: u64, jammed: u64 },
    /// It is not, for this cause.
    Refused(Refusal),
}

//! Why a proof text is refused.
use reo_checker::Wrong;
use reo_values::Bytes;

/// Why a proof text is refused: the first that is wrong with it. Lines are those of the text, from
/// 1.
#[derive(Drop)]
pub enum ProofRefusal {
    /// This line should be that of the next round or, as the last line, an ending, and is neither;
    /// or it should be `proved`, or a line before it, and is missing, or lacks its line feed.
    Line {
        line: u64,
    },
    /// The run was done or stuck before this round.
    Ended {
        round: u64,
    },
    /// The entries of this round are none of a colouring, for this cause. At a joint `node` is the
    /// flat name of the joint's node; otherwise it is empty.
    Round {
        round: u64,
        wrong: Wrong,
        node: Bytes,
    },
    /// The moves of this round are not those of its rows, or it is idle and does not say so, or
    /// says so and is not.
    Moves {
        round: u64,
    },
    /// In this round more than 256 items can stand at some joint.
    Wide {
        round: u64,
    },
    /// The log of this round is not right, and this is its first line that is not right where it
    /// stands. Where the log ends early it is the line `proved` behind it.
    Log {
        round: u64,
        line: u64,
    },
    /// The ending is not that of the run.
    End,
    /// Out of memory.
    NoMemory,
}

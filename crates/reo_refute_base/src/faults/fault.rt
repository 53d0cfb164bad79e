//! Why a log is not accepted.
use reo_checker::Wrong;

/// Why a log is not accepted.
#[derive(Clone, Copy, Debug, PartialEq, Eq)]
pub enum ProofFault {
    /// The rows, with the items that they determine, are no colouring: what is wrong first.
    Colouring(Wrong),
    /// More than 256 items can stand at some joint.
    Wide,
    /// The first line that is not right where it stands, or the line after the last where the log
    /// ends early. Lines are counted from 1.
    Line { line: u64 },
    /// Out of memory.
    NoMemory,
}

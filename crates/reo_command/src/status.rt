//! Exit statuses.

/// The exit status of a command.
#[derive(Clone, Copy, Debug, PartialEq, Eq)]
pub struct Status {
    pub code: u8,
}

/// Each component is at its end, or the other command did its work.
pub const DONE: u8 = 0;

/// Some component is not at its end, and nothing flowed in the last round.
pub const STUCK: u8 = 1;

/// The words have no form.
pub const WORDS_REFUSED: u8 = 2;

/// A file cannot be had, or the source fails.
pub const READ_FAULT: u8 = 3;

/// A file has more bytes than its limit, or the source has.
pub const TOO_LONG: u8 = 4;

/// The text of a circuit is refused.
pub const CIRCUIT_REFUSED: u8 = 5;

/// The text of a script is refused.
pub const SCRIPT_REFUSED: u8 = 6;

/// A part of the round that stood next, or of the open circuit that is listed, is over.
pub const PART_OVER: u8 = 7;

/// The limit of rounds is reached.
pub const LIMIT_REACHED: u8 = 8;

/// The sink failed.
pub const WRITE_FAULT: u8 = 9;

/// Out of memory.
pub const OUT_OF_MEMORY: u8 = 10;

/// The text of a trace is none, or the trace is refused.
pub const TRACE_REFUSED: u8 = 11;

/// A proof text is refused.
pub const PROOF_REFUSED: u8 = 13;

/// The tables of a circuit are refused: it has a filter, or one of them has too many lists.
pub const TABLES_REFUSED: u8 = 14;

//! Why a text is no trace.
ghost use Rattle.std.specs.Prelude.{◌≡◌};

use reo_values::NoMemory;
use std::fmt::{self, Debug, Display, Formatter};
use thiserror::Error;

/// Why a text is read as no trace.
#[derive(Clone, Copy, Debug, PartialEq, Eq, Error)]
pub enum TraceFault {
    /// The first wrong line, from 1: it is neither the next round line nor, as the last line, an
    /// ending. Where the text ends without an ending, the line after the last.
    #[error("line {line}")]
    Line { line: u64 },
    /// Out of memory.
    #[error("no memory")]
    NoMemory,
}

impl From<NoMemory> for TraceFault {
    ghost use Rattle.reo_trace_reader.specs.declared.texts.fault.TraceFault.TheVariants.{NoMemory as OutOfMemory};

    ghost from_gives = { λ _ e. e ≡ OutOfMemory };

    fn from(_: NoMemory) -> Self {
        TraceFault::NoMemory
    }
}

/// Why a line is read as no line of a trace.
#[derive(Clone, Copy, Debug, PartialEq, Eq, Error)]
pub enum LineFault {
    /// It is neither a round line nor an ending.
    #[error("form")]
    Form,
    /// Out of memory.
    #[error("no memory")]
    NoMemory,
}

impl From<NoMemory> for LineFault {
    ghost use Rattle.reo_trace_reader.specs.declared.texts.fault.LineFault.TheVariants.{NoMemory as OutOfMemory};

    ghost from_gives = { λ _ e. e ≡ OutOfMemory };

    fn from(_: NoMemory) -> Self {
        LineFault::NoMemory
    }
}

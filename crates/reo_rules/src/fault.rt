//! Why a program has no circuit.
ghost use Rattle.std.specs.Prelude.{◌≡◌};

use reo_values::{Bytes, NoMemory};
use std::fmt::{self, Debug, Display, Formatter};
use thiserror::Error;

/// Why a program has no circuit. Each line is counted from 1.
#[derive(Drop, Error)]
pub enum FlatFault {
    /// A name stands twice; the line is that of the second.
    #[error("line {line}: a name stands twice")]
    Twice { line: u32, name: Bytes },
    /// A name is not declared before its place.
    #[error("line {line}: an unknown name")]
    Unknown { line: u32, name: Bytes },
    /// An item's types do not fit.
    #[error("line {line}: mistyped")]
    Mistyped { line: u32 },
    /// A type or an item leaves its bounds.
    #[error("line {line}: range")]
    Range { line: u32 },
    /// A use has another number of arguments than its connector has parameters.
    #[error("line {line}: arity")]
    Arity { line: u32 },
    /// An end stands at a parameter that goes the other way.
    #[error("line {line}: an end against its direction")]
    Direction { line: u32, node: Bytes },
    /// A node or a parameter lacks an end.
    #[error("line {line}: a dangling node")]
    Dangling { line: u32, node: Bytes },
    /// No connector is named `main`.
    #[error("no main")]
    NoMain,
    /// The program unfolds to too much.
    #[error("too many")]
    TooMany,
    /// A directed cycle passes through no buffer; the node is the first in order on one.
    #[error("a directed cycle")]
    Cycle { node: Bytes },
    /// Out of memory.
    #[error("no memory")]
    NoMemory,
}

impl From<NoMemory> for FlatFault {
    ghost use Rattle.reo_rules.specs.declared.fault.FlatFault.TheVariants.{NoMemory as OutOfMemory};

    ghost from_gives = { λ _ e. e ≡ OutOfMemory };

    fn from(_: NoMemory) -> Self {
        FlatFault::NoMemory
    }
}

impl Debug for FlatFault {
    fn fmt<W: fmt::Write>(&self, f: &mut Formatter<W>) -> fmt::Result {
        Display::fmt(self, f)
    }
}

//! Why a program has no expansion.
ghost use Rattle.std.specs.Prelude.{◌≡◌};

use reo_values::{Bytes, NoMemory};
use std::fmt::{self, Debug, Display, Formatter};
use thiserror::Error;

/// Why a program of the second version is refused. Each line is that of the innermost item that
/// holds the index or the use.
#[derive(Drop, Error)]
pub enum ExpandFault {
    /// A name in an index is neither the variable of a loop around it nor the connector's number.
    #[error("line {line}: an unbound name")]
    Unbound { line: u32, name: Bytes },
    /// An array's size is not in 1 to 4,096, or the number of a use not in 0 to 4,096.
    #[error("line {line}: an index out of its bounds")]
    Index { line: u32 },
    /// A use has a number where no connector of its name that stands before has one, or has none
    /// where all have one.
    #[error("line {line}: arity")]
    Number { line: u32 },
    /// More than 65,536 items and turns.
    #[error("too many")]
    TooMany,
    /// Out of memory.
    #[error("no memory")]
    NoMemory,
}

impl From<NoMemory> for ExpandFault {
    ghost use Rattle.reo_expand.specs.declared.base.fault.ExpandFault.TheVariants.{NoMemory as OutOfMemory};

    ghost from_gives = { λ _ e. e ≡ OutOfMemory };

    fn from(_: NoMemory) -> Self {
        ExpandFault::NoMemory
    }
}

impl Debug for ExpandFault {
    fn fmt<W: fmt::Write>(&self, f: &mut Formatter<W>) -> fmt::Result {
        Display::fmt(self, f)
    }
}

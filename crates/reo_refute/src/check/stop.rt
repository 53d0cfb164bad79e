//! Why checking stops.
use reo_checker::Wrong;
use reo_values::NoMemory;

/// Why checking stops.
#[derive(Clone, Copy, Debug, PartialEq, Eq)]
pub(crate) enum LogStop {
    /// The rows, with the items that they determine, are no colouring.
    Colouring(Wrong),
    /// More than 256 items can stand at some joint.
    Wide,
    /// The first line that is not right where it stands, from 1.
    Line(u64),
    /// Out of memory.
    NoMemory,
}

impl From<NoMemory> for LogStop {
    ghost use Rattle.std.specs.Prelude.{◌≡◌};
    ghost use Rattle.reo_refute.specs.declared.check.stop.LogStop.TheVariants.{NoMemory as OutOfMemory};

    ghost from_gives = { λ _ stop. stop ≡ OutOfMemory };

    fn from(_: NoMemory) -> Self {
        LogStop::NoMemory
    }
}

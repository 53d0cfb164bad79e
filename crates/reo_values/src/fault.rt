//! Why a text is read as no item.

ghost use Rattle.std.specs.Prelude.{◌≡◌};

use crate::NoMemory;

/// Why reading gave nothing.
#[derive(Clone, Copy, Debug, PartialEq, Eq)]
pub enum ReadFault {
    /// Nothing of that type has this text.
    NotALiteral,
    /// Out of memory.
    NoMemory,
}

impl From<NoMemory> for ReadFault {
    ghost use Rattle.reo_values.specs.declared.fault.ReadFault.TheVariants.{NoMemory as OutOfMemory};

    ghost from_gives = { λ _ e. e ≡ OutOfMemory };

    fn from(_: NoMemory) -> Self {
        ReadFault::NoMemory
    }
}

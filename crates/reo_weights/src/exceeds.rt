//! Why nothing is found of a part.
use reo_values::NoMemory;

/// Why the rows of a part are not found, or a round is not planned: the part exceeds what it may
/// have, or memory ran out.
#[derive(Clone, Copy, Debug, PartialEq, Eq)]
pub enum Exceeds {
    /// At a joint of this part more than 256 items can stand.
    Wide { knot: usize },
    /// The weight of this part is above the budget.
    Spent { knot: usize, weight: u64 },
    /// Out of memory.
    NoMemory,
}

impl From<NoMemory> for Exceeds {
    ghost use Rattle.std.specs.Prelude.{◌≡◌};
    ghost use Rattle.reo_weights.specs.declared.exceeds.Exceeds.TheVariants.{NoMemory as OutOfMemory};

    ghost from_gives = { λ _ fault. fault ≡ OutOfMemory };

    fn from(_: NoMemory) -> Self {
        Exceeds::NoMemory
    }
}

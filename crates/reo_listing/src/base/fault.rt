//! Why boundary tables are not listed.
use reo_values::NoMemory;

/// Why boundary tables are not listed.
#[derive(Clone, Copy, Debug, PartialEq, Eq)]
pub enum ListFault {
    /// This primitive is the first filter.
    Filter { primitive: usize },
    /// The weight of this part of the open circuit is above the budget.
    Spent { part: usize, weight: u64 },
    /// The table of this part has more than 4,096 lists.
    Rows { part: usize },
    /// Out of memory.
    NoMemory,
}

impl From<NoMemory> for ListFault {
    ghost use Rattle.std.specs.Prelude.{◌≡◌};
    ghost use Rattle.reo_listing.specs.declared.base.fault.ListFault.TheVariants.{NoMemory as OutOfMemory};

    ghost from_gives = { λ _ fault. fault ≡ OutOfMemory };

    fn from(_: NoMemory) -> Self {
        ListFault::NoMemory
    }
}

//! What calls that hear something return.

use reo_values::NoMemory;

/// Whether something can follow.
#[derive(Clone, Copy, Debug, PartialEq, Eq)]
pub enum Going {
    /// It goes on.
    More,
    /// The event `end` was judged.
    Ended,
}

/// Why hearing stopped.
#[derive(Clone, Copy, Debug, PartialEq, Eq)]
pub enum LiveFault {
    /// The sink failed, and its count of faults rose.
    Failed,
    /// A round cannot be planned: at a joint of this part too many items can stand.
    Wide { knot: u64 },
    /// A round cannot be planned: the weight of this part is above the budget.
    Spent { knot: u64, weight: u64 },
    /// Out of memory.
    NoMemory,
}

impl From<NoMemory> for LiveFault {
    ghost use Rattle.std.specs.Prelude.{◌≡◌};
    ghost use Rattle.reo_live.specs.declared.talk.fault.LiveFault.TheVariants.{NoMemory as OutOfMemory};

    ghost from_gives = { λ _ fault. fault ≡ OutOfMemory };

    fn from(_: NoMemory) -> Self {
        LiveFault::NoMemory
    }
}

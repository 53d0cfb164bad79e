//! Why a replay stops before its last line.
use reo_runs::Refusal;
use reo_values::NoMemory;

/// Why a replay did not come to its last line.
#[derive(Drop)]
pub enum Halt {
    /// A line is refused.
    Refused(Refusal),
    /// Out of memory.
    NoMemory,
}

impl From<NoMemory> for Halt {
    ghost use Rattle.std.specs.Prelude.{◌≡◌};
    ghost use Rattle.reo_verify.specs.declared.halt.Halt.TheVariants.{NoMemory as OutOfMemory};

    ghost from_gives = { λ _ halt. halt ≡ OutOfMemory };

    fn from(_: NoMemory) -> Self {
        Halt::NoMemory
    }
}

//! Why a round with its log is not accepted.
use reo_refute_base::ProofFault;
use reo_values::NoMemory;
use reo_verify::Stop;

/// Why a round with its log is not accepted.
#[derive(Clone, Copy)]
pub enum RoundStop {
    /// The line shows no round.
    Line(Stop),
    /// The log does not show that the round is first.
    Log(ProofFault),
}

impl From<NoMemory> for RoundStop {
    ghost use Rattle.std.specs.Prelude.{◌≡◌};
    ghost use Rattle.reo_refute_base.specs.declared.faults.fault.ProofFault.TheVariants.{NoMemory as OutOfMemory};
    ghost use Rattle.reo_verify_proof.specs.declared.proof_rounds.stop.RoundStop.TheVariants.{Log as ByLog};

    ghost from_gives = { λ _ stop. stop ≡ ByLog OutOfMemory };

    fn from(_: NoMemory) -> Self {
        RoundStop::Log(ProofFault::NoMemory)
    }
}

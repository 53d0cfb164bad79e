//! Why the round of a proof text is refused.
ghost use Rattle.std.specs.Prelude.{◌≡◌};
ghost use Rattle.reo_verify_proof.specs.Refusing.{of_cause, IsLineRefusal, IsLogRefusal, IsRoundRefusal, IsOfLog, IsOfRound};

use crate::proof_rounds::RoundStop;
use reo_proof_texts::ProofRefusal;
use reo_refute_base::ProofFault;
use reo_runs::Refusal;
use reo_values::Bytes;
use reo_verify::{Stop, refusal_of};
use std::alloc::Global;

/// The refusal for the cause for which a trace is refused.
fn of_cause(cause: Refusal) -> ProofRefusal
    ensures { result ≡ of_cause cause }
{
    match cause {
        Refusal::Line { line } => ProofRefusal::Line { line },
        Refusal::Ended { round } => ProofRefusal::Ended { round },
        Refusal::Round { round, wrong, node } => ProofRefusal::Round { round, wrong, node },
        Refusal::Moves { round } => ProofRefusal::Moves { round },
        Refusal::End => ProofRefusal::End,
    }
}

/// The refusal of the round of a number whose line is not right.
fn refuse_line(
    alloc: Global,
    nodes: &[Bytes],
    homes: &[u32],
    round: u64,
    stop: Stop,
) -> ProofRefusal
    ensures { IsLineRefusal nodes.now homes.now round stop result }
{
    match refusal_of(alloc, nodes, homes, round, stop) {
        Ok(cause) => of_cause(cause),
        Err(_) => ProofRefusal::NoMemory,
    }
}

/// The refusal of the round of a number, behind so many lines, whose log is not accepted.
fn refuse_log(before: u64, round: u64, fault: ProofFault) -> ProofRefusal
    requires { IsOfLog before fault }
    ensures { IsLogRefusal before round fault result }
{
    match fault {
        ProofFault::Colouring(_) => unreachable!(),
        ProofFault::Wide => ProofRefusal::Wide { round },
        ProofFault::Line { line } => {
            let line = before + 1 + line;
            ProofRefusal::Log { round, line }
        }
        ProofFault::NoMemory => ProofRefusal::NoMemory,
    }
}

/// The refusal of the round of a number, behind so many lines, that is not accepted.
pub(crate) fn refuse_round(
    alloc: Global,
    nodes: &[Bytes],
    homes: &[u32],
    before: u64,
    round: u64,
    stop: RoundStop,
) -> ProofRefusal
    requires { IsOfRound before stop }
    ensures { IsRoundRefusal nodes.now homes.now before round stop result }
{
    match stop {
        RoundStop::Line(stop) => refuse_line(alloc, nodes, homes, round, stop),
        RoundStop::Log(fault) => refuse_log(before, round, fault),
    }
}

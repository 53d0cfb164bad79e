//! What words say, that there is one trace, and what becomes of one that was written.
ghost use Rattle.reo_top_laws.specs.Words.{LimitsAreSaid};
ghost use Rattle.reo_top_laws.specs.Certificates.{WrittenTracesAreVerified};
ghost use Rattle.reo_top_laws.specs.OneTrace.{ThereIsOneTrace};
ghost use Rattle.reo_top_laws.specs.Proofs.{VerifiedProofsAreFirst, WrittenProofsAreVerified};

use reo_circuit_texts::{circuit_names_are_plain, circuits_are_spelled};
use reo_flat::circuits_are_made;
use reo_kinds::Kind;
use reo_net_base::order_exists;
use reo_proof_laws::run_proofs_are_verified;
use reo_proof_texts::verified_rounds_are_first;
use reo_runs::{one_trace, runs_are_trace_texts, runs_are_verified, trace_exists};

/// The words behind the names of a run say a budget and a number of rounds exactly where they are,
/// in this order, `--budget` and that budget, or nothing and it is 100,000, and `--rounds` and that
/// number, or nothing and it is 100,000; both are from 1 to 10^9, in at most ten digits.
pub fn limits_are_said()
    ensures { LimitsAreSaid }
{}

/// For each circuit text and script text that are accepted there is exactly one trace text, with
/// one status, however far the run may go. This speaks of texts alone: it needs no memory and no
/// call.
pub fn there_is_one_trace()
    ensures { ThereIsOneTrace }
{
    circuits_are_made();
    circuit_names_are_plain();
    order_exists();
    trace_exists::<Kind>();
    one_trace::<Kind>();
}

/// The trace that a run wrote whole is a trace for the ports of its circuit, and the verdict on it
/// is that it is verified.
pub fn written_traces_are_verified()
    ensures { WrittenTracesAreVerified }
{
    circuits_are_spelled();
    circuit_names_are_plain();
    runs_are_trace_texts();
    runs_are_verified::<Kind>();
}

/// The verdict on a proved text that a run wrote whole is that it is verified, with as many rounds
/// as the run has.
pub fn written_proofs_are_verified()
    ensures { WrittenProofsAreVerified }
{
    circuits_are_spelled();
    circuit_names_are_plain();
    run_proofs_are_verified();
}

/// A proof is verified only where its rounds are those of a run in which each is the first
/// colouring of what the rounds before it have left, whoever wrote it.
pub fn verified_proofs_are_first()
    ensures { VerifiedProofsAreFirst }
{
    circuits_are_made();
    circuit_names_are_plain();
    order_exists();
    verified_rounds_are_first::<Kind>();
}

//! What a run with its logs writes is the text of a proof, and it is verified.
ghost use Rattle.reo_proof_laws.specs.run_proofs.Laws.{RunProofsAreVerified, RunsAreProofTexts};

use crate::proved_texts_are_cut;
use reo_kinds::Kind;
use reo_proof_texts::{proved_texts_are_of_runs, proved_texts_are_verified};
use reo_runs::runs_are_trace_texts;

/// On the circuit of a program as a text says it that is accepted, a proved text of a run of any
/// components is cut into rounds with their logs.
pub fn runs_are_proof_texts()
    ensures { RunsAreProofTexts }
{
    proved_texts_are_cut::<Kind>();
    proved_texts_are_of_runs::<Kind>();
    runs_are_trace_texts();
}

/// On the circuit of such a program, a proved text of a run of any components is verified.
pub fn run_proofs_are_verified()
    ensures { RunProofsAreVerified }
{
    runs_are_proof_texts();
    proved_texts_are_verified::<Kind>();
}

//! The verdict on a proof that is fetched.
ghost use Rattle.std.specs.Prelude.{◌≡◌, [], ◌∷◌, map};
ghost use Rattle.reo_kinds.specs.Kinds.{port_state_of};
ghost use Rattle.reo_command.specs.Readings.{CanRun};
ghost use Rattle.reo_trace_reader.specs.texts.Lines.{AreTold};
ghost use Rattle.reo_command.specs.declared.command.Command.TheVariants as commands;
ghost use Rattle.reo_command.specs.declared.role.Role.TheVariants as roles;
ghost use Rattle.reo_command.specs.Claims.{ReadsProof, StopsProof};
ghost use Rattle.reo_command.specs.Commands.{is_free};
ghost use Rattle.reo_command.specs.ReadSteps.{claimed_in};
ghost use Rattle.reo_command.specs.States.{files_change, sink_change};
ghost use Rattle.reo_command.specs.Statuses.{IsAmong, statuses_of};
ghost use Rattle.reo_command.specs.top_base.Answered.{IsAnswered};
ghost use Rattle.reo_command.specs.top_base.Cases.{Cases, IsExact, IsFair, TellsFaults};
ghost use Rattle.reo_command.specs.top_base.Owed.{owed_by};
ghost use Rattle.reo_top.specs.verdicts.Judged.{JudgesProof};
ghost use Rattle.reo_top.specs.verdicts.ProofStatuses.{proof_status};

use reo_command::{
    CircuitAndScript, DONE, PROOF_REFUSED, ProofClaim, Status, answer, no_memory, read_proof,
    refuse,
};
use reo_io::{Files, Sink};
use reo_proof_texts::proof_verdict_line;
use reo_verify_proof::{ProofRefusal, verify_proof};
use std::alloc::Global;

/// The status of the verdict on a proof.
fn proof_status(verdict: &Result<u64, ProofRefusal>) -> u8
    ensures { result ≡ proof_status verdict.now }
{
    match verdict {
        Ok(_) => DONE,
        Err(_) => PROOF_REFUSED,
    }
}

/// Writes the verdict on a proof.
fn write_proof_verdict<S: Sink>(alloc: Global, claim: ProofClaim, out: &mut S) -> Status
    requires fit { CanRun (map port_state_of claim.work.flat.circuit.primitives)
        claim.work.flat.circuit.ports claim.work.flat.ports.list claim.work.script.components }
    requires told { AreTold claim.work.flat.ports.list }
    ensures cases { let claimed = claimed_in claim.work.flat claim.work.script claim.proof in
        Cases (JudgesProof claimed) (sink_change S.told S.faults out.old out.new) result.code }
    ensures exact { let claimed = claimed_in claim.work.flat claim.work.script claim.proof in
        IsExact (JudgesProof claimed) (sink_change S.told S.faults out.old out.new) result.code }
    ensures fair { IsFair (sink_change S.told S.faults out.old out.new) result.code }
    ensures tells { TellsFaults (sink_change S.told S.faults out.old out.new) result.code }
{
    let ProofClaim {
        work: CircuitAndScript { flat, script },
        proof,
    } = claim;
    let verdict = verify_proof(alloc, flat, script, proof.as_slice());
    match proof_verdict_line(alloc, &verdict) {
        Ok(line) => answer(line.as_slice(), proof_status(&verdict), out),
        Err(_) => no_memory(out),
    }
}

/// Fetches the circuit, the script and the proof, reads the first two, and writes the verdict on
/// the third.
pub fn verify_proof_claim<F: Files, S: Sink>(
    alloc: Global,
    circuit: &[u8],
    script: &[u8],
    proof: &[u8],
    files: &mut F,
    out: &mut S,
) -> Status
    ensures answered { IsAnswered (is_free commands.VerifyProof)
        (owed_by ReadsProof StopsProof JudgesProof)
        (roles.Circuit ∷ roles.Script ∷ roles.Proof ∷ [])
        (circuit.now ∷ script.now ∷ proof.now ∷ [])
        (files_change F.told F.failed F.given F.long F.fetches files.old files.new)
        (sink_change S.told S.faults out.old out.new) result.code }
    ensures status { IsAmong (statuses_of commands.VerifyProof) result.code }
    ensures fair { IsFair (sink_change S.told S.faults out.old out.new) result.code }
    ensures tells { TellsFaults (sink_change S.told S.faults out.old out.new) result.code }
{
    match read_proof(alloc, circuit, script, proof, files) {
        Ok(claim) => write_proof_verdict(alloc, claim, out),
        Err(stop) => refuse(alloc, stop, out),
    }
}

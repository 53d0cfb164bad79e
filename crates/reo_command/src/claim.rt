//! Traces and proofs that are fetched and read, with the circuit and the script that they are said
//! to be of.
ghost use Rattle.std.specs.Prelude.{[], ◌∷◌, IfOk, map};
ghost use Rattle.reo_kinds.specs.Kinds.{port_state_of};
ghost use Rattle.reo_runner.specs.Runs.{CanRun};
ghost use Rattle.reo_trace_reader.specs.texts.Lines.{AreTold};
ghost use Rattle.reo_runs.specs.verdicts.Replays.{HasText};
ghost use Rattle.reo_command.specs.declared.role.Role.TheVariants as roles;
ghost use Rattle.reo_command.specs.Claims.{ReadsClaim, ReadsProof, StopsProof, StopsVerify};
ghost use Rattle.reo_command.specs.Readings.{IsReadFrom};
ghost use Rattle.reo_command.specs.ReadSteps.{IsProofRead, IsTraceRead, claimed_in};
ghost use Rattle.reo_command.specs.States.{files_change};

use crate::fetching::fetch;
use crate::reading::{CircuitAndScript, read_run};
use crate::role::Role;
use crate::stop::Stop;
use crate::texts::trace_of;
use reo_io::Files;
use reo_net_base::Ports;
use reo_trace_reader::TraceText;
use reo_values::Bytes;
use std::alloc::Global;

/// The trace that a file is for the ports of a circuit, or what stops the command.
fn read_lines<F: Files>(
    alloc: Global,
    ports: &Ports,
    name: &[u8],
    files: &mut F,
) -> Result<TraceText, Stop>
    requires { AreTold ports.now.list }
    ensures read { IsTraceRead ports.now.list (name.now ∷ [])
        (files_change F.told F.failed F.given F.long F.fetches files.old files.new) result }
    ensures text { IfOk result (HasText ports.now.list) }
{
    let text = fetch(alloc, Role::Trace, name, files)?;
    trace_of(alloc, text, ports)
}

/// A circuit, a script for its ports, and a trace that is said to be that of their run, which is
/// held as its text.
#[derive(Drop)]
pub struct Claim {
    pub work: CircuitAndScript,
    pub trace: TraceText,
}

/// The circuit, the script and the trace that three files say, or what stops the command. The trace
/// is fetched once the script is read.
pub fn read_claim<F: Files>(
    alloc: Global,
    circuit: &[u8],
    script: &[u8],
    trace: &[u8],
    files: &mut F,
) -> Result<Claim, Stop>
    ensures read { IsReadFrom
        (λ answers claim. ReadsClaim answers
        (claimed_in claim.work.flat claim.work.script claim.trace))
        StopsVerify (roles.Circuit ∷ roles.Script ∷ roles.Trace ∷ [])
        (circuit.now ∷ script.now ∷ trace.now ∷ [])
        (files_change F.told F.failed F.given F.long F.fetches files.old files.new) result }
    ensures fit { IfOk result (λ claim.
        CanRun (map port_state_of claim.work.flat.circuit.primitives)
        claim.work.flat.circuit.ports claim.work.flat.ports.list claim.work.script.components) }
    ensures text { IfOk result (λ claim. HasText claim.work.flat.ports.list claim.trace) }
{
    let work = match read_run(alloc, circuit, script, files) {
        Ok(work) => work,
        Err(stop) => return Err(stop),
    };
    match read_lines(alloc, &work.flat.ports, trace, files) {
        Ok(trace) => Ok(Claim { work, trace }),
        Err(stop) => Err(stop),
    }
}

/// The bytes of the file of a proof, or what stops the command.
fn read_bytes<F: Files>(alloc: Global, name: &[u8], files: &mut F) -> Result<Bytes, Stop>
    ensures { IsProofRead (name.now ∷ [])
        (files_change F.told F.failed F.given F.long F.fetches files.old files.new) result }
{
    fetch(alloc, Role::Proof, name, files)
}

/// A circuit, a script for its ports, and a text that is said to be the proved text of their run.
#[derive(Drop)]
pub struct ProofClaim {
    pub work: CircuitAndScript,
    pub proof: Bytes,
}

/// The circuit and the script that two files say, and the text of a third, or what stops the
/// command. The third file is fetched once the script is read, and taken as it stands.
pub fn read_proof<F: Files>(
    alloc: Global,
    circuit: &[u8],
    script: &[u8],
    proof: &[u8],
    files: &mut F,
) -> Result<ProofClaim, Stop>
    ensures read { IsReadFrom
        (λ answers claim. ReadsProof answers
        (claimed_in claim.work.flat claim.work.script claim.proof))
        StopsProof (roles.Circuit ∷ roles.Script ∷ roles.Proof ∷ [])
        (circuit.now ∷ script.now ∷ proof.now ∷ [])
        (files_change F.told F.failed F.given F.long F.fetches files.old files.new) result }
    ensures fit { IfOk result (λ claim.
        CanRun (map port_state_of claim.work.flat.circuit.primitives)
        claim.work.flat.circuit.ports claim.work.flat.ports.list claim.work.script.components) }
    ensures told { IfOk result (λ claim. AreTold claim.work.flat.ports.list) }
{
    let work = match read_run(alloc, circuit, script, files) {
        Ok(work) => work,
        Err(stop) => return Err(stop),
    };
    match read_bytes(alloc, proof, files) {
        Ok(proof) => Ok(ProofClaim { work, proof }),
        Err(stop) => Err(stop),
    }
}

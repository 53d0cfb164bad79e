//! The verdict on a proof text.
ghost use Rattle.std.specs.Prelude.{◌≡◌, ℕ, Result, IfOk, map};
ghost use Rattle.reo_kinds.specs.Kinds.{port_state_of};
ghost use Rattle.reo_trace_reader.specs.texts.Lines.{AreTold};
ghost use Rattle.reo_runs.specs.Run.{start_of};
ghost use Rattle.reo_runs.specs.at_ports.Kinds.{kind_rules};
ghost use Rattle.reo_runs.specs.at_ports.Runnable.{CanRun};
ghost use Rattle.reo_proof_texts.specs.declared.refusal.ProofRefusal.{ProofRefusal as ARefusal};
ghost use Rattle.reo_proof_texts.specs.ProofVerdicts.{IsProofVerdict};
ghost use Rattle.reo_verify_proof.specs.Answered.{IfVerdict};
ghost use Rattle.reo_verify_proof.specs.Firsts.{AreFirsts};

use crate::replay::replay;
use reo_flatten::Flat;
use reo_kinds::Kind;
use reo_proof_texts::{ProofRefusal, one_proof_verdict, verified_rounds_are_first};
use reo_runs::known_order;
use reo_script::Script;
use std::alloc::Global;

/// The verdict on a proof text of a script on a circuit: how many rounds it has, where it is the
/// proved text of a run in which each round is some colouring. The text is replayed: in each round
/// the components make their offers, the line and its log are judged, the circuit steps by the rows
/// of the line and each component goes on. Where it is verified, each round is the first colouring.
///
/// Not judged is why a round could not be planned.
///
/// # Errors
///
/// The first that is wrong with the text. `NoMemory` is out of memory.
pub fn verify_proof(
    alloc: Global,
    flat: Flat,
    script: Script,
    proof: &[u8],
) -> Result<u64, ProofRefusal>
    requires fit { let states = map port_state_of flat.circuit.primitives in
        CanRun states flat.circuit.ports flat.ports.list script.components }
    requires told { AreTold flat.ports.list }
    ensures exact { let start = start_of flat.circuit script.components in
        IfVerdict result
        (IsProofVerdict kind_rules flat.ports.list flat.nodes flat.homes start proof.now) }
    ensures only { let start = start_of flat.circuit script.components in
        (verdict : Result ℕ ARefusal)
        → IsProofVerdict kind_rules flat.ports.list flat.nodes flat.homes start proof.now verdict
        → IfVerdict result (λ answer. answer ≡ verdict) }
    ensures first { let start = start_of flat.circuit script.components in
        IfOk result (AreFirsts kind_rules flat.ports.list start proof.now) }
{
    let Flat {
        circuit,
        ports,
        nodes,
        homes,
    } = flat;
    known_order(&circuit);
    one_proof_verdict::<Kind>();
    verified_rounds_are_first::<Kind>();
    let nodes = nodes.as_slice();
    let homes = homes.as_slice();
    replay(alloc, circuit, &ports, nodes, homes, script, proof)
}

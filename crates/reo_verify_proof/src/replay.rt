//! The replay of a proof text.
ghost use Rattle.std.specs.Prelude.{◌≡◌, ◌<◌, ◌^◌, map};
ghost use Rattle.reo_trace_reader.specs.texts.Lines.{AreTold};
ghost use Rattle.reo_rounds.specs.Rules.{rules_of};
ghost use Rattle.reo_runs.specs.Run.{Place, start_of};
ghost use Rattle.reo_runs.specs.at_ports.Between.{AreBetween};
ghost use Rattle.reo_runs.specs.at_ports.Runnable.{CanRun};
ghost use Rattle.reo_verify.specs.judging.Ends.{IsEndOf};
ghost use Rattle.reo_proof_texts.specs.ProofVerdicts.{IsProofVerdict};
ghost use Rattle.reo_verify_proof.specs.Answered.{IfVerdict};
ghost use Rattle.reo_verify_proof.specs.Ended.{IsVerdictAt};

use crate::proof_rounds::prove_round;
use crate::refusing::refuse_round;
use reo_net_base::{Ports, Restoring};
use reo_net_circuit::Circuit;
use reo_players::Players;
use reo_proof_reader::{Next, ProofReader, read_next};
use reo_proof_texts::ProofRefusal;
use reo_rounds::{PlainStage, Stage};
use reo_runs::known_order;
use reo_script::Script;
use reo_trace::Ending;
use reo_values::Bytes;
use reo_verify::{begins, ends_as};
use std::alloc::Global;

/// The verdict on a proof text all of whose rounds were accepted, of a run that is over so, or not
/// over, by its ending.
fn verdict_at(over: Option<Ending>, made: u64, ending: Ending) -> Result<u64, ProofRefusal>
    requires { made < 2 ^ 63 }
    ensures { IsVerdictAt over made ending result }
{
    if ends_as(over, made + 1, ending) {
        Ok(made)
    } else {
        Err(ProofRefusal::End)
    }
}

/// The verdict on a proof text. Its rounds are made one after another, each if it is accepted, as
/// long as the run is not over, and then its ending is judged.
fn replay_rounds<P: Restoring>(
    alloc: Global,
    stage: &mut PlainStage<P>,
    players: &mut Players,
    ports: &Ports,
    nodes: &[Bytes],
    homes: &[u32],
    begins: Option<Ending>,
    proof: &[u8],
) -> Result<u64, ProofRefusal>
    requires between { let old = stage.old.circuit in
        AreBetween ports.now.list old.ports players.old (map P.port_state old.primitives) }
    requires none_made { stage.old.rounds ≡ 0 }
    requires told { AreTold ports.now.list }
    ensures { let r = rules_of P.behaviour P.settled P.port_state P.placed P.withdrawn in
        let circuit = stage.old.circuit in
        let start : Place _ =
        record { state = record { circuit = circuit; players = players.old }; over = begins } in
        IfVerdict result (IsProofVerdict r ports.now.list nodes.now homes.now start proof.now) }
{
    known_order(stage.circuit());
    let _length = proof.len();
    let mut reader = ProofReader::new(proof);
    let mut over = begins;
    let mut before = 0;
    loop {
        let made = stage.rounds();
        match read_next(alloc, &mut reader, ports, made + 1) {
            Err(_) => return Err(ProofRefusal::NoMemory),
            Ok(Next::Wrong { line }) => return Err(ProofRefusal::Line {
                line: before + line,
            }),
            Ok(Next::Ending(ending)) => return verdict_at(over, made, ending),
            Ok(Next::Round { line, log, lines }) => {
                if over.is_some() {
                    return Err(ProofRefusal::Ended { round: made + 1 });
                }
                match prove_round(alloc, stage, players, ports, &line, log) {
                    Ok(now) => over = now,
                    Err(stop) => {
                        return Err(refuse_round(alloc, nodes, homes, before, made + 1, stop));
                    }
                }
                before += lines + 2;
            }
        }
    }
}

/// The verdict on a proof text of components on a circuit.
pub(crate) fn replay<P: Restoring>(
    alloc: Global,
    circuit: Circuit<P>,
    ports: &Ports,
    nodes: &[Bytes],
    homes: &[u32],
    script: Script,
    proof: &[u8],
) -> Result<u64, ProofRefusal>
    requires fit { let states = map P.port_state circuit.primitives in
        CanRun states circuit.ports ports.now.list script.components }
    requires told { AreTold ports.now.list }
    ensures { let r = rules_of P.behaviour P.settled P.port_state P.placed P.withdrawn in
        let start = start_of circuit script.components in
        IfVerdict result (IsProofVerdict r ports.now.list nodes.now homes.now start proof.now) }
{
    let Ok(mut players) = Players::new(alloc, script) else {
        return Err(ProofRefusal::NoMemory);
    };
    let mut stage = PlainStage::new(circuit);
    let begins = begins(&players);
    replay_rounds(
        alloc,
        &mut stage,
        &mut players,
        ports,
        nodes,
        homes,
        begins,
        proof,
    )
}

//! The replay of a trace.
ghost use Rattle.std.specs.Prelude.{◌≡◌, ◌<◌, ◌+◌, ◌^◌, ◌++◌, [], ◌∷◌, List as AList, IfOk, OnOk, IfErr, MatchResult, length, map};
ghost use Rattle.reo_net_base.specs.Net.{Wiring};
ghost use Rattle.reo_trace.specs.declared.line.RoundLine.{RoundLine as ALine};
ghost use Rattle.reo_trace_reader.specs.texts.Lines.{AreLines};
ghost use Rattle.reo_rounds.specs.Rules.{rules_of};
ghost use Rattle.reo_runs.specs.Run.{Leads, Place, start_of};
ghost use Rattle.reo_runs.specs.at_ports.Pending.{IsButForOffers};
ghost use Rattle.reo_runs.specs.at_ports.Between.{AreBetween};
ghost use Rattle.reo_runs.specs.at_ports.Runnable.{CanRun};
ghost use Rattle.reo_runs.specs.verdicts.Replays.{colourings};
ghost use Rattle.reo_runs.specs.verdicts.Said.{jammed};
ghost use Rattle.reo_verify.specs.Replayed.{IsReplayed, IsNoRound, AreReplayed, IsHalted};

use crate::halt::Halt;
use crate::jams::entries_jams;
use crate::judging::{Stop, begins, plan_of, refusal_of};
use crate::outcome::Outcome;
use crate::witness::Witness;
use reo_net_base::{Ports, Restoring};
use reo_net_circuit::Circuit;
use reo_players::Players;
use reo_rounds::{PlainStage, Stage};
use reo_runs::{Refusal, carry_out, offer_all};
use reo_script::Script;
use reo_trace::{Ending, RoundLine};
use reo_trace_reader::TraceLines;
use reo_values::Bytes;
use std::alloc::Global;

/// Makes the round that a line shows: the components make their offers, the line is judged, it is
/// seen, and then the circuit steps and each component goes on. The answer is how the run is over
/// after it, if it is.
///
/// # Errors
///
/// What is wrong first with the line. `NoMemory` is out of memory. No round was made.
fn replay_round<P: Restoring, W: Witness<P>>(
    alloc: Global,
    stage: &mut PlainStage<P>,
    players: &mut Players,
    ports: &Ports,
    line: &RoundLine,
    witness: &mut W,
) -> Result<Option<Ending>, Stop>
    requires between { let old = stage.old.circuit in
        AreBetween ports.now.list old.ports players.old (map P.port_state old.primitives) }
    requires few { stage.old.rounds < 2 ^ 63 }
    requires number { line.now.round ≡ stage.old.rounds + 1 }
    ensures made { let r = rules_of P.behaviour P.settled P.port_state P.placed P.withdrawn in
        let turn = stage.old.rounds + 1 in
        (w : Wiring _) → IsButForOffers r w stage.old.circuit
        → IfOk result (IsReplayed r turn (record { circuit = w; players = players.old }) line.now
        stage.new.circuit players.new) }
    ensures seen { let r = rules_of P.behaviour P.settled P.port_state P.placed P.withdrawn in
        (first : W) (start before : Place P) (lines : AList ALine)
        → Leads colourings r 1 start lines before → before.state.players ≡ players.old
        → IsButForOffers r before.state.circuit stage.old.circuit
        → length lines ≡ stage.old.rounds → W.seen first start lines witness.old
        → OnOk result (W.seen first start (lines ++ line.now ∷ []) witness.new) }
    ensures wrong { let r = rules_of P.behaviour P.settled P.port_state P.placed P.withdrawn in
        (w : Wiring _) → IsButForOffers r w stage.old.circuit
        → IfErr result (IsNoRound r (record { circuit = w; players = players.old }) line.now) }
    ensures between { let new = stage.new.circuit in
        let states = map P.port_state new.primitives in
        OnOk result (AreBetween ports.now.list new.ports players.new states) }
    ensures rounds { OnOk result (stage.new.rounds ≡ stage.old.rounds + 1) }
{
    offer_all(stage, ports, players)?;
    let circuit = stage.circuit();
    let plan = plan_of(alloc, circuit, line)?;
    witness.see(alloc, circuit, line, &plan)?;
    let carried = carry_out(stage, players, ports, plan);
    Ok(carried.over)
}

/// Makes the rounds that lines show, one after another, as long as the run is not over. Each line
/// is read, judged and let go.
///
/// # Errors
///
/// `Refused` with what is wrong with the first line that shows no round. `NoMemory` is out of
/// memory.
fn replay_rounds<P: Restoring, W: Witness<P>>(
    alloc: Global,
    stage: &mut PlainStage<P>,
    players: &mut Players,
    ports: &Ports,
    nodes: &[Bytes],
    homes: &[u32],
    begins: Option<Ending>,
    rounds: TraceLines,
    witness: &mut W,
) -> Result<Outcome, Halt>
    requires between { let old = stage.old.circuit in
        AreBetween ports.now.list old.ports players.old (map P.port_state old.primitives) }
    requires none_made { stage.old.rounds ≡ 0 }
    requires lines { AreLines ports.now.list 1 rounds }
    requires few { jammed rounds < 2 ^ 63 }
    requires none_seen { (start : Place P) → W.seen witness.old start [] witness.old }
    ensures replayed { let r = rules_of P.behaviour P.settled P.port_state P.placed P.withdrawn in
        let circuit = stage.old.circuit in
        let start : Place _ =
        record { state = record { circuit = circuit; players = players.old }; over = begins } in
        MatchResult result (AreReplayed r start rounds.entry)
        (IsHalted r nodes.now homes.now start rounds.entry) }
    ensures seen { let circuit = stage.old.circuit in
        let start : Place _ =
        record { state = record { circuit = circuit; players = players.old }; over = begins } in
        OnOk result (W.seen witness.old start rounds.entry witness.new) }
{
    let mut left = rounds;
    let mut over = begins;
    let mut jammed = 0;
    while let Some(line) = left.next(alloc)? {
        let turn = stage.rounds() + 1;
        if over.is_some() {
            return Err(Halt::Refused(Refusal::Ended { round: turn }));
        }
        jammed += entries_jams(line.entries.as_slice());
        match replay_round(alloc, stage, players, ports, &line, witness) {
            Ok(now) => over = now,
            Err(stop) => {
                let refusal = refusal_of(alloc, nodes, homes, turn, stop)?;
                return Err(Halt::Refused(refusal));
            }
        }
    }
    let rounds = stage.rounds();
    Ok(Outcome {
        over,
        rounds,
        jammed,
    })
}

/// Makes the rounds that lines show, of components on a circuit, each of which is seen. No search
/// stands behind it, and one line at a time is held.
///
/// # Errors
///
/// `Refused` with what is wrong with the first line that shows no round. `NoMemory` is out of
/// memory.
pub fn replay<P: Restoring, W: Witness<P>>(
    alloc: Global,
    circuit: Circuit<P>,
    ports: &Ports,
    nodes: &[Bytes],
    homes: &[u32],
    script: Script,
    rounds: TraceLines,
    witness: &mut W,
) -> Result<Outcome, Halt>
    requires fit { let states = map P.port_state circuit.primitives in
        CanRun states circuit.ports ports.now.list script.components }
    requires lines { AreLines ports.now.list 1 rounds }
    requires few { jammed rounds < 2 ^ 63 }
    requires none_seen { (start : Place P) → W.seen witness.old start [] witness.old }
    ensures replayed { let r = rules_of P.behaviour P.settled P.port_state P.placed P.withdrawn in
        let start = start_of circuit script.components in
        MatchResult result (AreReplayed r start rounds.entry)
        (IsHalted r nodes.now homes.now start rounds.entry) }
    ensures seen { let start = start_of circuit script.components in
        OnOk result (W.seen witness.old start rounds.entry witness.new) }
{
    let mut players = Players::new(alloc, script)?;
    let mut stage = PlainStage::new(circuit);
    let begins = begins(&players);
    replay_rounds(
        alloc,
        &mut stage,
        &mut players,
        ports,
        nodes,
        homes,
        begins,
        rounds,
        witness,
    )
}

//! One round of a proof text.
ghost use Rattle.std.specs.Prelude.{◌≡◌, ◌+◌, ◌<◌, ◌^◌, IfOk, IfErr, OnOk, map};
ghost use Rattle.reo_net_base.specs.Net.{Wiring};
ghost use Rattle.reo_rounds.specs.Rules.{rules_of};
ghost use Rattle.reo_runs.specs.Round.{State};
ghost use Rattle.reo_runs.specs.at_ports.Between.{AreBetween};
ghost use Rattle.reo_runs.specs.at_ports.Pending.{IsButForOffers};
ghost use Rattle.reo_verify_proof.specs.proof_rounds.Rounds.{IsRoundProven, IsNoProof};

use crate::proof_rounds::stop::RoundStop;
use reo_net_base::{Ports, Restoring};
use reo_players::Players;
use reo_refute::check_proof;
use reo_rounds::{PlainStage, Stage};
use reo_runs::{carry_out, offer_all};
use reo_trace::{Ending, RoundLine};
use reo_verify::plan_of;
use std::alloc::Global;

/// Makes the round that a line shows, if its log shows that no colouring stands before its rows:
/// the components make their offers, line and log are judged, and then the circuit steps and each
/// component goes on. The answer is how the run is over after it, if it is.
///
/// # Errors
///
/// `Line` with what is wrong first with the line; `Log` with why the log is not accepted, or out of
/// memory. No round was made.
pub fn prove_round<P: Restoring>(
    alloc: Global,
    stage: &mut PlainStage<P>,
    players: &mut Players,
    ports: &Ports,
    line: &RoundLine,
    log: &[u8],
) -> Result<Option<Ending>, RoundStop>
    requires between { let old = stage.old.circuit in
        AreBetween ports.now.list old.ports players.old (map P.port_state old.primitives) }
    requires few { stage.old.rounds + 1 < 2 ^ 63 }
    requires number { line.now.round ≡ stage.old.rounds + 1 }
    ensures made { let r = rules_of P.behaviour P.settled P.port_state P.placed P.withdrawn in
        let turn = stage.old.rounds + 1 in
        (w : Wiring _) → IsButForOffers r w stage.old.circuit
        → IfOk result (IsRoundProven r turn (record { circuit = w; players = players.old }) line.now
        log.now stage.new.circuit players.new) }
    ensures wrong { let r = rules_of P.behaviour P.settled P.port_state P.placed P.withdrawn in
        let turn = stage.old.rounds + 1 in
        (w : Wiring _) → IsButForOffers r w stage.old.circuit
        → IfErr result (IsNoProof r turn (record { circuit = w; players = players.old }) line.now
        log.now) }
    ensures between { let new = stage.new.circuit in
        let states = map P.port_state new.primitives in
        OnOk result (AreBetween ports.now.list new.ports players.new states) }
    ensures rounds { OnOk result (stage.new.rounds ≡ stage.old.rounds + 1) }
{
    offer_all(stage, ports, players)?;
    let turn = stage.rounds() + 1;
    let circuit = stage.circuit();
    match plan_of(alloc, circuit, line) {
        Err(stop) => Err(RoundStop::Line(stop)),
        Ok(plan) => {
            let rows = plan.colouring.rows.as_slice();
            match check_proof(alloc, circuit, turn, rows, log) {
                Err(fault) => Err(RoundStop::Log(fault)),
                Ok(()) => {
                    let carried = carry_out(stage, players, ports, plan);
                    Ok(carried.over)
                }
            }
        }
    }
}

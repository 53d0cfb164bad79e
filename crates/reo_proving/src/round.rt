//! One round of a run with its logs.
ghost use Rattle.std.specs.Prelude.{◌≡◌, ◌≤◌, ◌<◌, ◌+◌, ◌^◌, None, map, IfOk, OnOk, IsErrOf};
ghost use Rattle.reo_io.specs.Causes.{Rose};
ghost use Rattle.reo_net_base.specs.Net.{Wiring, net_of};
ghost use Rattle.reo_net_base.specs.Step.{stepped};
ghost use Rattle.reo_trace.specs.declared.write.WriteFault.TheVariants.{Failed as SinkFailed, NoMemory as OutOfMemory};
ghost use Rattle.reo_rounds.specs.Plans.{IsPlannedRound};
ghost use Rattle.reo_rounds.specs.Rules.{rules_of};
ghost use Rattle.reo_runs.specs.Round.{State, advanced};
ghost use Rattle.reo_runs.specs.Run.{over_after};
ghost use Rattle.reo_runs.specs.at_ports.Between.{AreBetween, AreStarted};
ghost use Rattle.reo_runs.specs.at_ports.Pending.{IsButForOffers};
ghost use Rattle.reo_proving.specs.Rounds.{CutRound, HasLogged, HasLoggedPart, Went, ending_for};

use crate::logging::write_logged;
use reo_io::Sink;
use reo_net_base::{Ports, Restoring};
use reo_players::Players;
use reo_proof_laws::{logs_are_lines, within_is_narrow};
use reo_runner::{Engine, Exceeds, Limits, PlannedRound};
use reo_runs::{Carried, carry_out, known_order, offer_all};
use reo_steps::Steps;
use reo_trace::{Ending, WriteFault};
use std::alloc::Global;
use std::sync::ledger::Ledger;

/// The ending that stands in place of the round of a number, where a part is over.
fn ending_for(turn: u64, budget: u64, fault: Exceeds) -> Option<Ending>
    ensures { result ≡ ending_for turn budget fault }
{
    match fault {
        Exceeds::Wide { knot } => Some(Ending::Wide {
            round: turn,
            knot: knot as u64,
        }),
        Exceeds::Spent { knot, weight } => Some(Ending::Spent {
            round: turn,
            knot: knot as u64,
            weight,
            budget,
        }),
        Exceeds::NoMemory => None,
    }
}

/// Writes a planned round with its log, and makes it: how the run is over after it, if it is.
///
/// # Errors
///
/// `Failed` comes only where the sink's count of faults rose, and it rises nowhere else: a front of
/// the round with its log was taken, and not the whole. `NoMemory` is out of memory: the sink stays
/// as it was. No round was made.
fn log_round<P: Restoring, S: Sink>(
    alloc: Global,
    engine: &mut Engine<P>,
    players: &mut Players,
    ports: &Ports,
    budget: u64,
    planned: PlannedRound,
    out: &mut S,
) -> Result<Option<Ending>, WriteFault>
    requires started { let old = engine.old.circuit in
        AreStarted ports.now.list old.ports players.old (map P.port_state old.primitives) }
    requires planned { let net = net_of P.behaviour engine.old.circuit in
        let turn = engine.old.rounds + 1 in
        IsPlannedRound budget net engine.old.circuit.ports turn planned }
    requires few { engine.old.rounds < 10 ^ 9 }
    ensures ok { let net = net_of P.behaviour engine.old.circuit in
        let turn = engine.old.rounds + 1 in
        OnOk result (HasLogged net turn planned.plan.colouring.rows ports.now.list planned.line
        (S.told out.old) (S.told out.new)) }
    ensures failed { let net = net_of P.behaviour engine.old.circuit in
        let turn = engine.old.rounds + 1 in IsErrOf result SinkFailed
        → HasLoggedPart net turn planned.plan.colouring.rows ports.now.list planned.line
        (S.told out.old) (S.told out.new) }
    ensures cause { IsErrOf result SinkFailed → Rose (S.faults out.old) (S.faults out.new) }
    ensures memory { IsErrOf result OutOfMemory → out.new ≡ out.old }
    ensures later { S.faults out.old ≤ S.faults out.new }
    ensures risen { S.faults out.old < S.faults out.new → IsErrOf result SinkFailed }
    ensures players { let net = net_of P.behaviour engine.old.circuit in
        OnOk result (players.new ≡ advanced net planned.plan.colouring.rows players.old) }
    ensures circuit { let r = rules_of P.behaviour P.settled P.port_state P.placed P.withdrawn in
        let old = engine.old.circuit in
        let colouring = planned.plan.colouring in
        let primitives = stepped P.behaviour P.settled old colouring.rows colouring.items in
        OnOk result (IsButForOffers r (record old { primitives = primitives })
        engine.new.circuit) }
    ensures between { let new = engine.new.circuit in
        let states = map P.port_state new.primitives in
        OnOk result (AreBetween ports.now.list new.ports players.new states) }
    ensures rounds { OnOk result (engine.new.rounds ≡ engine.old.rounds + 1) }
    ensures over { let turn = engine.old.rounds + 1 in
        IfOk result (λ over. over ≡ over_after turn planned.plan.idle players.old players.new) }
{
    let _ = budget;
    known_order(engine.circuit());
    within_is_narrow();
    let turn = engine.rounds() + 1;
    write_logged(alloc, engine.circuit(), turn, ports, &planned, out)?;
    let Carried { moves, over } = carry_out(engine, players, ports, planned.plan);
    let _ = moves;
    Ok(over)
}

/// Goes on with a run of which some component is not done: makes the round that stands next,
/// written with its log, or makes none where the run stops. Answers the ending of the run, if it is
/// over.
///
/// # Errors
///
/// As those of `log_round`.
pub(crate) fn log_next<P: Restoring, L: Ledger, S: Sink>(
    alloc: Global,
    engine: &mut Engine<P>,
    players: &mut Players,
    ports: &Ports,
    limits: Limits,
    steps: &mut Steps<L>,
    out: &mut S,
) -> Result<Option<Ending>, WriteFault>
    requires between { let old = engine.old.circuit in
        AreBetween ports.now.list old.ports players.old (map P.port_state old.primitives) }
    requires budget { limits.budget < 10 ^ 18 }
    requires within { engine.old.rounds ≤ limits.rounds }
    requires few { limits.rounds ≤ 10 ^ 9 }
    ensures went { let r = rules_of P.behaviour P.settled P.port_state P.placed P.withdrawn in
        let turn = engine.old.rounds + 1 in
        (w : Wiring _) → IsButForOffers r w engine.old.circuit
        → IfOk result (Went r ports.now.list limits.budget limits.rounds turn
        (record { circuit = w; players = players.old }) (S.told out.old) (S.told out.new)
        engine.new.circuit players.new) }
    ensures failed { let r = rules_of P.behaviour P.settled P.port_state P.placed P.withdrawn in
        let turn = engine.old.rounds + 1 in
        (w : Wiring _) → IsButForOffers r w engine.old.circuit
        → IsErrOf result SinkFailed → CutRound r ports.now.list limits.budget limits.rounds turn
        (record { circuit = w; players = players.old }) (S.told out.old) (S.told out.new) }
    ensures cause { IsErrOf result SinkFailed → Rose (S.faults out.old) (S.faults out.new) }
    ensures memory { IsErrOf result OutOfMemory → out.new ≡ out.old }
    ensures later { S.faults out.old ≤ S.faults out.new }
    ensures risen { S.faults out.old < S.faults out.new → IsErrOf result SinkFailed }
    ensures between { let new = engine.new.circuit in
        let states = map P.port_state new.primitives in
        IfOk result (λ over. over ≡ None → AreBetween ports.now.list new.ports players.new states) }
    ensures rounds { IfOk result (λ over. over ≡ None
        → (engine.new.rounds ≡ engine.old.rounds + 1) × (engine.old.rounds < limits.rounds)) }
{
    logs_are_lines();
    let made = engine.rounds();
    if made == limits.rounds {
        return Ok(Some(Ending::Limit { rounds: made }));
    }
    offer_all(engine, ports, players)?;
    match engine.plan_round(alloc, limits.budget, steps) {
        Ok(planned) => {
            let over = log_round(alloc, engine, players, ports, limits.budget, planned, out)?;
            Ok(over)
        }
        Err(fault) => match ending_for(made + 1, limits.budget, fault) {
            Some(ending) => Ok(Some(ending)),
            None => Err(WriteFault::NoMemory),
        },
    }
}

//! The run.
ghost use Rattle.std.specs.Prelude.{◌≡◌, ◌≢◌, ◌≤◌, ◌<◌, ◌+◌, ◌^◌, map, None};
ghost use Rattle.reo_io.specs.Causes.{Rose};
ghost use Rattle.reo_kinds.specs.Kinds.{port_state_of};
ghost use Rattle.reo_net_base.specs.PortState.{PortState};
ghost use Rattle.reo_players.specs.Players.{all_done};
ghost use Rattle.reo_script.specs.declared.scripts.action.Component.{Component};
ghost use Rattle.reo_rounds.specs.Rules.{rules_of};
ghost use Rattle.reo_runs.specs.Run.{Place, start_of, firsts};
ghost use Rattle.reo_runs.specs.Whole.{HasRun};
ghost use Rattle.reo_runs.specs.at_ports.Between.{AreBetween};
ghost use Rattle.reo_runs.specs.at_ports.Kinds.{kind_rules};
ghost use Rattle.reo_runner.specs.Outcome.{CameTo, StopsAs};
ghost use Rattle.reo_runs.specs.at_ports.Runnable.{CanRun};
ghost use Rattle.reo_runner.specs.Runs.{HasRuns};
ghost use Rattle.reo_runner.specs.declared.planning.RoundFault.TheVariants.{Failed as SinkFailed};

use crate::at_ports::{Engine, release_circuit, release_players, release_run};
use crate::ending::close;
use crate::outcome::{End2, Limits, Outcome, Tally};
use crate::planning::RoundFault;
use crate::round::play_round;
use reo_flatten::Flat;
use reo_io::Sink;
use reo_net_base::{Ported, Ports, Restoring};
use reo_net_circuit::Circuit;
use reo_players::Players;
use reo_runs::{known_order, trace_exists};
use reo_script::Script;
use reo_steps::Steps;
use reo_trace::Ending;
use std::alloc::Global;
use std::marker::Brand;
use std::sync::ledger::{Blank, Ledger};

/// There is a run from each start on a circuit, and each beginning of one goes on to a whole run.
fn has_runs<P: Ported>(circuit: &Circuit<P>)
    ensures { let r = rules_of P.behaviour P.settled P.port_state P.placed P.withdrawn in
        HasRuns r circuit.now }
{
    known_order(circuit);
    trace_exists::<P>();
}

/// Writes why the run stops in place of the round of this number, and answers its outcome.
fn stop<S: Sink>(
    alloc: Global,
    fault: RoundFault,
    turn: u64,
    budget: u64,
    tally: Tally,
    out: &mut S,
) -> Outcome
    ensures stops { StopsAs turn budget tally fault (S.told out.old) (S.told out.new) result }
    ensures cause { fault ≢ SinkFailed → result.end ≡ End2.WriteFault
        → Rose (S.faults out.old) (S.faults out.new) }
    ensures failed { fault ≡ SinkFailed → result.end ≡ End2.WriteFault }
    ensures later { S.faults out.old ≤ S.faults out.new }
    ensures risen { S.faults out.old < S.faults out.new → result.end ≡ End2.WriteFault }
{
    match fault {
        RoundFault::Spent { knot, weight } => {
            let round = turn;
            let ending = Ending::Spent {
                round,
                knot,
                weight,
                budget,
            };
            close(alloc, ending, tally, out)
        }
        RoundFault::Wide { knot } => close(alloc, Ending::Wide { round: turn, knot }, tally, out),
        RoundFault::Failed => tally.outcome(End2::WriteFault),
        RoundFault::NoMemory => tally.outcome(End2::NoMemory),
    }
}

/// The rounds of a run of which some component is not done, and its ending.
fn play_rounds<P: Restoring, L: Ledger, S: Sink>(
    alloc: Global,
    engine: &mut Engine<P>,
    players: &mut Players,
    ports: &Ports,
    limits: Limits,
    steps: &mut Steps<L>,
    out: &mut S,
) -> Outcome
    requires between { let old = engine.old.circuit in
        AreBetween ports.now.list old.ports players.old (map P.port_state old.primitives) }
    requires none_made { engine.old.rounds ≡ 0 }
    requires small_budget { limits.budget ≤ 10 ^ 9 }
    requires few_rounds { limits.rounds ≤ 10 ^ 9 }
    ensures came { let r = rules_of P.behaviour P.settled P.port_state P.placed P.withdrawn in
        let circuit = engine.old.circuit in
        CameTo r ports.now.list limits.budget limits.rounds
        (record { state = record { circuit = circuit; players = players.old }; over = None })
        (S.told out.old) (S.told out.new) result }
    ensures cause { result.end ≡ End2.WriteFault → Rose (S.faults out.old) (S.faults out.new) }
    ensures later { S.faults out.old ≤ S.faults out.new }
    ensures risen { S.faults out.old < S.faults out.new → result.end ≡ End2.WriteFault }
{
    has_runs(engine.circuit());
    let mut tally = Tally::new();
    loop {
        let made = engine.rounds();
        if made == limits.rounds {
            let ending = Ending::Limit { rounds: made };
            return close(alloc, ending, tally, out);
        }
        let round = play_round(alloc, engine, players, ports, limits, tally, steps, out);
        match round {
            Ok(made) => {
                tally = made.tally;
                if let Some(ending) = made.over {
                    return close(alloc, ending, tally, out);
                }
            }
            Err(fault) => return stop(alloc, fault, made + 1, limits.budget, tally, out),
        }
    }
}

/// The run of components on a circuit, whose steps are counted in a book.
fn run_counted<P: Restoring, L: Ledger, S: Sink>(
    alloc: Global,
    circuit: Circuit<P>,
    ports: &Ports,
    script: Script,
    limits: Limits,
    blank: Blank,
    out: &mut S,
) -> Outcome
    requires name { blank.name ≡ L.name }
    requires parts { blank.parts ≡ L.parts }
    requires some_part { 0 < L.parts }
    requires small_budget { limits.budget ≤ 10 ^ 9 }
    requires few_rounds { limits.rounds ≤ 10 ^ 9 }
    requires fit { let states = map P.port_state circuit.primitives in
        CanRun states circuit.ports ports.now.list script.components }
    ensures came { let r = rules_of P.behaviour P.settled P.port_state P.placed P.withdrawn in
        CameTo r ports.now.list limits.budget limits.rounds (start_of circuit script.components)
        (S.told out.old) (S.told out.new) result }
    ensures cause { result.end ≡ End2.WriteFault → Rose (S.faults out.old) (S.faults out.new) }
    ensures later { S.faults out.old ≤ S.faults out.new }
    ensures risen { S.faults out.old < S.faults out.new → result.end ≡ End2.WriteFault }
{
    has_runs(&circuit);
    let tally = Tally::new();
    let Ok(mut players) = Players::new(alloc, script) else {
        release_circuit(circuit);
        return tally.outcome(End2::NoMemory);
    };
    if players.all_done() {
        release_circuit(circuit);
        release_players(players);
        return close(alloc, Ending::Done { rounds: 0 }, tally, out);
    }
    let Ok(mut engine) = Engine::new(alloc, circuit) else {
        release_players(players);
        return tally.outcome(End2::NoMemory);
    };
    let mut steps = Steps::<L>::new(blank);
    let outcome = play_rounds(
        alloc,
        &mut engine,
        &mut players,
        ports,
        limits,
        &mut steps,
        out,
    );
    release_run(engine, players);
    outcome
}

/// Runs a script on a circuit, and writes its trace: a line for each round, after it was planned
/// and before the circuit steps, and then the ending.
///
/// The run is done before the first round where every component is done. After each round it is
/// done where every component is done, else stuck where the round was idle and no component counted
/// in it. In place of a round it stops at its limit where `limits.rounds` rounds were made.
///
/// After a fault the sink has got a front of the trace, and the outcome counts the round lines that
/// it has got whole. Where it ran out of memory it has got whole round lines of the trace, in order
/// and none skipped, and the outcome counts these.
pub fn run<S: Sink>(
    alloc: Global,
    flat: Flat,
    script: Script,
    limits: Limits,
    out: &mut S,
) -> Outcome
    requires some_budget { 1 ≤ limits.budget }
    requires small_budget { limits.budget ≤ 10 ^ 9 }
    requires some_round { 1 ≤ limits.rounds }
    requires few_rounds { limits.rounds ≤ 10 ^ 9 }
    requires fit { let states = map port_state_of flat.circuit.primitives in
        CanRun states flat.circuit.ports flat.ports.list script.components }
    ensures came { let start = start_of flat.circuit script.components in
        CameTo kind_rules flat.ports.list limits.budget limits.rounds start
        (S.told out.old) (S.told out.new) result }
    ensures cause { result.end ≡ End2.WriteFault → Rose (S.faults out.old) (S.faults out.new) }
    ensures later { S.faults out.old ≤ S.faults out.new }
    ensures risen { S.faults out.old < S.faults out.new → result.end ≡ End2.WriteFault }
{
    let Flat {
        circuit,
        ports,
        nodes: _,
        homes: _,
    } = flat;
    let blank = Blank::new(1);
    run_counted::<_, Brand, S>(alloc, circuit, &ports, script, limits, blank, out)
}

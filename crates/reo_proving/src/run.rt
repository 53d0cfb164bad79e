//! The run with its logs.
ghost use Rattle.std.specs.Prelude.{◌≡◌, ◌<◌, ◌≤◌, ◌^◌, None, map, IsErrOf};
ghost use Rattle.reo_io.specs.Causes.{Rose};
ghost use Rattle.reo_kinds.specs.Kinds.{port_state_of};
ghost use Rattle.reo_net_base.specs.Net.{net_of};
ghost use Rattle.reo_trace.specs.declared.write.WriteFault.TheVariants.{Failed as SinkFailed};
ghost use Rattle.reo_rounds.specs.Rules.{rules_of};
ghost use Rattle.reo_runs.specs.Run.{start_of, firsts};
ghost use Rattle.reo_runs.specs.at_ports.Between.{AreBetween};
ghost use Rattle.reo_runs.specs.at_ports.Kinds.{kind_rules};
ghost use Rattle.reo_runs.specs.at_ports.Runnable.{CanRun};
ghost use Rattle.reo_proving.specs.Proving.{HasCome, HaveProofs};

use crate::round::log_next;
use reo_flatten::Flat;
use reo_io::Sink;
use reo_net_base::{Ported, Ports, Restoring};
use reo_net_circuit::Circuit;
use reo_players::Players;
use reo_proof_laws::proofs_exist;
use reo_runner::{Engine, Limits, release_run};
use reo_runs::known_order;
use reo_script::Script;
use reo_steps::Steps;
use reo_trace::{Ending, WriteFault, write_ending};
use std::alloc::Global;
use std::marker::Brand;
use std::sync::ledger::{Blank, Ledger};

/// Rounds with logs with which a run on a circuit begins go on to a proved text.
fn have_proofs<P: Ported>(circuit: &Circuit<P>)
    ensures { let r = rules_of P.behaviour P.settled P.port_state P.placed P.withdrawn in
        HaveProofs r circuit.now }
{
    circuit.known();
    known_order(circuit);
    proofs_exist::<P>();
}

/// The rounds of a run of which some component is not done, with their logs, and its ending.
fn log_rounds<P: Restoring, L: Ledger, S: Sink>(
    alloc: Global,
    engine: &mut Engine<P>,
    players: &mut Players,
    ports: &Ports,
    limits: Limits,
    steps: &mut Steps<L>,
    out: &mut S,
) -> Result<Ending, WriteFault>
    requires between { let old = engine.old.circuit in
        AreBetween ports.now.list old.ports players.old (map P.port_state old.primitives) }
    requires none_made { engine.old.rounds ≡ 0 }
    requires small_budget { limits.budget ≤ 10 ^ 9 }
    requires few_rounds { limits.rounds ≤ 10 ^ 9 }
    ensures came { let r = rules_of P.behaviour P.settled P.port_state P.placed P.withdrawn in
        let circuit = engine.old.circuit in
        HasCome (firsts limits.budget limits.rounds) r ports.now.list
        (record { state = record { circuit = circuit; players = players.old }; over = None })
        (S.told out.old) (S.told out.new) result }
    ensures cause { IsErrOf result SinkFailed → Rose (S.faults out.old) (S.faults out.new) }
    ensures later { S.faults out.old ≤ S.faults out.new }
    ensures risen { S.faults out.old < S.faults out.new → IsErrOf result SinkFailed }
{
    have_proofs(engine.circuit());
    loop {
        if let Some(ending) = log_next(alloc, engine, players, ports, limits, steps, out)? {
            write_ending(alloc, &ending, out)?;
            return Ok(ending);
        }
    }
}

/// The run of components on a circuit with its logs, whose steps are counted in a book.
fn run_counted<P: Restoring, L: Ledger, S: Sink>(
    alloc: Global,
    circuit: Circuit<P>,
    ports: &Ports,
    script: Script,
    limits: Limits,
    blank: Blank,
    out: &mut S,
) -> Result<Ending, WriteFault>
    requires name { blank.name ≡ L.name }
    requires parts { blank.parts ≡ L.parts }
    requires some_part { 0 < L.parts }
    requires small_budget { limits.budget ≤ 10 ^ 9 }
    requires few_rounds { limits.rounds ≤ 10 ^ 9 }
    requires fit { let states = map P.port_state circuit.primitives in
        CanRun states circuit.ports ports.now.list script.components }
    ensures came { let r = rules_of P.behaviour P.settled P.port_state P.placed P.withdrawn in
        HasCome (firsts limits.budget limits.rounds) r ports.now.list
        (start_of circuit script.components) (S.told out.old) (S.told out.new) result }
    ensures cause { IsErrOf result SinkFailed → Rose (S.faults out.old) (S.faults out.new) }
    ensures later { S.faults out.old ≤ S.faults out.new }
    ensures risen { S.faults out.old < S.faults out.new → IsErrOf result SinkFailed }
{
    have_proofs(&circuit);
    let mut players = Players::new(alloc, script)?;
    if players.all_done() {
        let ending = Ending::Done { rounds: 0 };
        write_ending(alloc, &ending, out)?;
        return Ok(ending);
    }
    let mut engine = Engine::new(alloc, circuit)?;
    let mut steps = Steps::<L>::new(blank);
    let ending = log_rounds(
        alloc,
        &mut engine,
        &mut players,
        ports,
        limits,
        &mut steps,
        out,
    );
    release_run(engine, players);
    ending
}

/// Runs a script on a circuit, and writes the proved text of the run: for each round, after it was
/// planned and before the circuit steps, its line, a log that shows that no colouring stands before
/// its rows, and the line `proved`; and then the ending, which is the answer. The run is the one
/// that `run` makes within the same limits.
///
/// # Errors
///
/// `Failed` comes only where the sink's count of faults rose: the sink has got a front of a proved
/// text, and not the whole. `NoMemory` is out of memory: the sink has got whole rounds with their
/// logs, those that stand first in a proved text.
pub fn prove_run<S: Sink>(
    alloc: Global,
    flat: Flat,
    script: Script,
    limits: Limits,
    out: &mut S,
) -> Result<Ending, WriteFault>
    requires some_budget { 1 ≤ limits.budget }
    requires small_budget { limits.budget ≤ 10 ^ 9 }
    requires some_round { 1 ≤ limits.rounds }
    requires few_rounds { limits.rounds ≤ 10 ^ 9 }
    requires fit { let states = map port_state_of flat.circuit.primitives in
        CanRun states flat.circuit.ports flat.ports.list script.components }
    ensures came { let start = start_of flat.circuit script.components in
        HasCome (firsts limits.budget limits.rounds) kind_rules flat.ports.list start
        (S.told out.old) (S.told out.new) result }
    ensures cause { IsErrOf result SinkFailed → Rose (S.faults out.old) (S.faults out.new) }
    ensures later { S.faults out.old ≤ S.faults out.new }
    ensures risen { S.faults out.old < S.faults out.new → IsErrOf result SinkFailed }
{
    let Flat {
        circuit,
        ports,
        nodes: _,
        homes: _,
    } = flat;
    let blank = Blank::new(1);
    run_counted::<_, Brand, S>(alloc, circuit, &ports, script, limits, blank, out)
}

//! The verdict on a trace.
ghost use Rattle.std.specs.Prelude.{◌≡◌, ◌<◌, ◌^◌, IfOk, map};
ghost use Rattle.reo_kinds.specs.Kinds.{port_state_of};
ghost use Rattle.reo_rounds.specs.Rules.{rules_of};
ghost use Rattle.reo_runs.specs.Run.{start_of};
ghost use Rattle.reo_runs.specs.at_ports.Kinds.{kind_rules};
ghost use Rattle.reo_runs.specs.at_ports.Runnable.{CanRun};
ghost use Rattle.reo_runs.specs.declared.verdicts.verdict.Verdict.{Verdict as AVerdict};
ghost use Rattle.reo_runs.specs.verdicts.Replays.{HasText};
ghost use Rattle.reo_runs.specs.verdicts.Verdicts.{IsVerdict};
ghost use Rattle.reo_verify.specs.Replayed.{IsVerdictAt};

use crate::halt::Halt;
use crate::judging::ends_as;
use crate::outcome::Outcome;
use crate::replaying::replay;
use crate::witness::Blind;
use reo_flatten::Flat;
use reo_kinds::Kind;
use reo_net_base::{Ports, Restoring};
use reo_net_circuit::Circuit;
use reo_runs::{Refusal, Verdict, known_order, one_verdict};
use reo_script::Script;
use reo_trace::Ending;
use reo_trace_reader::TraceText;
use reo_values::{Bytes, NoMemory};
use std::alloc::Global;

/// The verdict on a trace of this ending, whose lines are all rounds of a run, and come to this.
fn verdict_at(outcome: Outcome, ending: Ending) -> Verdict
    requires { outcome.rounds < 2 ^ 63 }
    ensures { IsVerdictAt outcome ending result }
{
    let Outcome {
        over,
        rounds,
        jammed,
    } = outcome;
    if ends_as(over, rounds + 1, ending) {
        Verdict::Verified { rounds, jammed }
    } else {
        Verdict::Refused(Refusal::End)
    }
}

/// The verdict on a trace of components on a circuit. `NoMemory` is out of memory.
fn verdict_of<P: Restoring>(
    alloc: Global,
    circuit: Circuit<P>,
    ports: &Ports,
    nodes: &[Bytes],
    homes: &[u32],
    script: Script,
    trace: &TraceText,
) -> Result<Verdict, NoMemory>
    requires fit { let states = map P.port_state circuit.primitives in
        CanRun states circuit.ports ports.now.list script.components }
    requires text { HasText ports.now.list trace.now }
    ensures { let r = rules_of P.behaviour P.settled P.port_state P.placed P.withdrawn in
        let start = start_of circuit script.components in
        IfOk result (IsVerdict r nodes.now homes.now start trace.now) }
{
    let rounds = trace.lines();
    match replay(
        alloc, circuit, ports, nodes, homes, script, rounds, &mut Blind,
    ) {
        Ok(outcome) => Ok(verdict_at(outcome, trace.ending())),
        Err(Halt::Refused(refusal)) => Ok(Verdict::Refused(refusal)),
        Err(Halt::NoMemory) => Err(NoMemory),
    }
}

/// The verdict on a trace of a script on a circuit. The trace is replayed: in each round the line
/// is read, the components make their offers, the line is judged, the circuit steps by its rows
/// and each component goes on. It is verified where it is the trace of a run in which each round
/// is some colouring; otherwise the refusal is the first that is wrong with it.
///
/// Not judged are whether a colouring is the first, and why a round could not be planned.
/// `NoMemory` is out of memory.
pub fn verify_trace(
    alloc: Global,
    flat: Flat,
    script: Script,
    trace: &TraceText,
) -> Result<Verdict, NoMemory>
    requires fit { let states = map port_state_of flat.circuit.primitives in
        CanRun states flat.circuit.ports flat.ports.list script.components }
    requires text { HasText flat.ports.list trace.now }
    ensures exact { let start = start_of flat.circuit script.components in
        IfOk result (IsVerdict kind_rules flat.nodes flat.homes start trace.now) }
    ensures only { let start = start_of flat.circuit script.components in
        (verdict : AVerdict) → IsVerdict kind_rules flat.nodes flat.homes start trace.now verdict
        → IfOk result (λ answer. answer ≡ verdict) }
{
    let Flat {
        circuit,
        ports,
        nodes,
        homes,
    } = flat;
    known_order(&circuit);
    one_verdict::<Kind>();
    let nodes = nodes.as_slice();
    let homes = homes.as_slice();
    verdict_of(alloc, circuit, &ports, nodes, homes, script, trace)
}

//! One round of a trace that is replayed.
ghost use Rattle.std.specs.Prelude.{◌≡◌, ◌<◌, ◌^◌, IfOk, map};
ghost use Rattle.reo_kinds.specs.Kinds.{port_state_of};
ghost use Rattle.reo_runs.specs.Run.{start_of};
ghost use Rattle.reo_runs.specs.at_ports.Runnable.{CanRun};
ghost use Rattle.reo_runs.specs.verdicts.Replays.{HasText};
ghost use Rattle.reo_draw_replay.specs.declared.showing.Shown.{Shown as AShown};
ghost use Rattle.reo_draw_replay.specs.Shown.{IsShown};
ghost use Rattle.reo_draw_replay.specs.Steps.{IsShownAt};

use crate::drawing::Pictured;
use crate::laws::one_round;
use reo_flatten::Flat;
use reo_kinds::Kind;
use reo_net_base::Ports;
use reo_net_circuit::Circuit;
use reo_runs::{Refusal, known_order, one_verdict};
use reo_script::Script;
use reo_trace::Ending;
use reo_trace_reader::TraceText;
use reo_values::{Bytes, NoMemory};
use reo_verify::{Halt, Outcome, ends_as, replay};
use std::alloc::Global;

/// What there is to show of a trace.
#[derive(Drop)]
pub enum Shown {
    /// The picture of the round.
    Picture(Bytes),
    /// The trace has no such round.
    NoRound,
    /// The trace is refused.
    Refused(Refusal),
}

/// What there is to show of a trace of this ending, whose lines are all rounds of a run, and come
/// to this.
fn shown_at(outcome: Outcome, picture: Option<Bytes>, ending: Ending) -> Shown
    requires { outcome.rounds < 2 ^ 63 }
    ensures { IsShownAt outcome picture ending result }
{
    if ends_as(outcome.over, outcome.rounds + 1, ending) {
        match picture {
            Some(picture) => Shown::Picture(picture),
            None => Shown::NoRound,
        }
    } else {
        Shown::Refused(Refusal::End)
    }
}

/// What there is to show of a trace of components on a circuit. `NoMemory` is out of memory.
fn shown_of(
    alloc: Global,
    circuit: Circuit<Kind>,
    ports: &Ports,
    nodes: &[Bytes],
    homes: &[u32],
    script: Script,
    trace: &TraceText,
    number: u64,
) -> Result<Shown, NoMemory>
    requires fit { let states = map port_state_of circuit.primitives in
        CanRun states circuit.ports ports.now.list script.components }
    requires text { HasText ports.now.list trace.now }
    ensures { let start = start_of circuit script.components in
        IfOk result (IsShown ports.now.list nodes.now homes.now start trace.now number) }
{
    let rounds = trace.lines();
    let mut drawing = Pictured {
        ports,
        nodes,
        homes,
        number,
        picture: None,
    };
    match replay(
        alloc,
        circuit,
        ports,
        nodes,
        homes,
        script,
        rounds,
        &mut drawing,
    ) {
        Ok(outcome) => Ok(shown_at(outcome, drawing.picture, trace.ending())),
        Err(Halt::Refused(refusal)) => Ok(Shown::Refused(refusal)),
        Err(Halt::NoMemory) => Err(NoMemory),
    }
}

/// The picture of the round of a number in a trace of a script on a circuit. The trace is replayed
/// to its end, as where it is verified; where it is refused, the refusal is the first that is wrong
/// with it. `NoMemory` is out of memory.
pub fn show_round(
    alloc: Global,
    flat: Flat,
    script: Script,
    trace: &TraceText,
    number: u64,
) -> Result<Shown, NoMemory>
    requires fit { let states = map port_state_of flat.circuit.primitives in
        CanRun states flat.circuit.ports flat.ports.list script.components }
    requires text { HasText flat.ports.list trace.now }
    ensures exact { let start = start_of flat.circuit script.components in
        IfOk result (IsShown flat.ports.list flat.nodes flat.homes start trace.now number) }
    ensures only { let start = start_of flat.circuit script.components in
        (shown : AShown)
        → IsShown flat.ports.list flat.nodes flat.homes start trace.now number shown
        → IfOk result (λ answer. answer ≡ shown) }
{
    let Flat {
        circuit,
        ports,
        nodes,
        homes,
    } = flat;
    known_order(&circuit);
    one_verdict::<Kind>();
    one_round::<Kind>();
    let nodes = nodes.as_slice();
    let homes = homes.as_slice();
    shown_of(alloc, circuit, &ports, nodes, homes, script, trace, number)
}

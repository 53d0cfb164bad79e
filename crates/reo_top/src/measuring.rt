//! Made work that is run, and the line of what came of it.
ghost use Rattle.std.specs.Prelude.{◌≡◌, ◌++◌, ◌≤◌, ◌<◌, ◌^◌, IfOk, OnOk, None, map};
ghost use Rattle.reo_kinds.specs.Kinds.{port_state_of};
ghost use Rattle.reo_runner.specs.Outcome.{CameTo};
ghost use Rattle.reo_command.specs.Readings.{kind_rules, CanRun};
ghost use Rattle.reo_runs.specs.Run.{start_of};
ghost use Rattle.reo_command.specs.declared.command.Command.TheVariants as commands;
ghost use Rattle.reo_command.specs.Limits.{usual_limits};
ghost use Rattle.reo_command.specs.ReadSteps.{runnable_in};
ghost use Rattle.reo_command.specs.States.{sink_change};
ghost use Rattle.reo_command.specs.Statuses.{IsAmong, statuses_of};
ghost use Rattle.reo_command.specs.top_base.Cases.{Cases, IsExact, IsFair, TellsFaults};
ghost use Rattle.reo_top.specs.Measures.{measure_text, measure_line, measure_status, MeasuresRun, MeasuresMade, ending_for};

use reo_command::{
    CircuitAndScript, DONE, PART_OVER, Status, answer, make_run, no_memory, usual_limits,
};
use reo_io::{NullSink, Sink};
use reo_kinds::Kind;
use reo_proof_texts::append_numbered;
use reo_runner::{End2, Limits, Outcome, run};
use reo_runs::{known_order, one_trace};
use reo_trace::{Ending, ending_line_text};
use reo_values::{Bytes, NoMemory};
use std::alloc::Global;

/// Adds the line of a run, its line feed included. `NoMemory` is out of memory.
fn append_measure(
    alloc: Global,
    line: &mut Bytes,
    size: u32,
    primitives: usize,
    outcome: Outcome,
    end: &[u8],
) -> Result<(), NoMemory>
    ensures { let o = outcome in OnOk result (line.new ≡ line.old
        ++ measure_text size primitives o.rounds o.written o.delivered end.now) }
{
    append_numbered(alloc, line, b"bench ", size as u64)?;
    append_numbered(alloc, line, b": ", primitives as u64)?;
    append_numbered(alloc, line, b" primitives, ", outcome.rounds)?;
    append_numbered(alloc, line, b" rounds, ", outcome.written)?;
    append_numbered(alloc, line, b" written, ", outcome.delivered)?;
    line.append(b" delivered, ")?;
    line.append(end)?;
    line.append(b"\n")?;
    Ok(())
}

/// The line of a run that ended with this word. `NoMemory` is out of memory.
fn measure_text(
    alloc: Global,
    size: u32,
    primitives: usize,
    outcome: Outcome,
    end: &[u8],
) -> Result<Bytes, NoMemory>
    ensures { let o = outcome in IfOk result (λ line. line
        ≡ measure_text size primitives o.rounds o.written o.delivered end.now) }
{
    let mut line = Bytes::new(alloc);
    append_measure(alloc, &mut line, size, primitives, outcome, end)?;
    Ok(line)
}

/// The line of a run with this ending. `NoMemory` is out of memory.
fn measure_line(
    alloc: Global,
    size: u32,
    primitives: usize,
    outcome: Outcome,
    ending: Ending,
) -> Result<Bytes, NoMemory>
    ensures { let o = outcome in IfOk result (λ line. line
        ≡ measure_line size primitives o.rounds o.written o.delivered ending) }
{
    match ending {
        Ending::Done { .. } => measure_text(alloc, size, primitives, outcome, b"done"),
        Ending::Stuck { .. } => measure_text(alloc, size, primitives, outcome, b"stuck"),
        Ending::Limit { .. } => measure_text(alloc, size, primitives, outcome, b"limit"),
        Ending::Spent { .. } | Ending::Wide { .. } => ending_line_text(alloc, &ending),
    }
}

/// The status of such a line.
fn measure_status(ending: Ending) -> u8
    ensures { result ≡ measure_status ending }
{
    match ending {
        Ending::Done { .. } | Ending::Stuck { .. } | Ending::Limit { .. } => DONE,
        Ending::Spent { .. } | Ending::Wide { .. } => PART_OVER,
    }
}

/// The ending that an outcome stands for: `None` where the run came to none.
fn ending_for(budget: u64, outcome: Outcome) -> Option<Ending>
    requires { outcome.rounds < 2 ^ 63 }
    ensures { result ≡ ending_for budget outcome.rounds outcome.end }
{
    let rounds = outcome.rounds;
    match outcome.end {
        End2::Done => Some(Ending::Done { rounds }),
        End2::Stuck => Some(Ending::Stuck { rounds }),
        End2::Limit => Some(Ending::Limit { rounds }),
        End2::Spent { knot, weight } => Some(Ending::Spent {
            round: rounds + 1,
            knot,
            weight,
            budget,
        }),
        End2::Wide { knot } => Some(Ending::Wide {
            round: rounds + 1,
            knot,
        }),
        End2::WriteFault | End2::NoMemory => None,
    }
}

/// What the run of a script on a circuit has come to; its trace is not kept.
fn outcome_of(alloc: Global, work: CircuitAndScript, limits: Limits) -> Outcome
    requires some_budget { 1 ≤ limits.budget }
    requires small_budget { limits.budget ≤ 10 ^ 9 }
    requires some_round { 1 ≤ limits.rounds }
    requires few_rounds { limits.rounds ≤ 10 ^ 9 }
    requires fit { CanRun (map port_state_of work.flat.circuit.primitives)
        work.flat.circuit.ports work.flat.ports.list work.script.components }
    ensures came { let start = start_of work.flat.circuit work.script.components in
        CameTo kind_rules work.flat.ports.list limits.budget limits.rounds start
        None None result }
    ensures few { result.rounds ≤ limits.rounds }
{
    let CircuitAndScript { flat, script } = work;
    run(alloc, flat, script, limits, &mut NullSink::new())
}

/// Runs a script on a circuit, and writes what came of it in one line.
fn write_measure<S: Sink>(alloc: Global, size: u32, work: CircuitAndScript, out: &mut S) -> Status
    requires fit { CanRun (map port_state_of work.flat.circuit.primitives)
        work.flat.circuit.ports work.flat.ports.list work.script.components }
    ensures cases { Cases (MeasuresRun size usual_limits (runnable_in work.flat work.script))
        (sink_change S.told S.faults out.old out.new) result.code }
    ensures exact { IsExact (MeasuresRun size usual_limits (runnable_in work.flat work.script))
        (sink_change S.told S.faults out.old out.new) result.code }
    ensures fair { IsFair (sink_change S.told S.faults out.old out.new) result.code }
    ensures tells { TellsFaults (sink_change S.told S.faults out.old out.new) result.code }
{
    known_order(&work.flat.circuit);
    one_trace::<Kind>();
    let limits = usual_limits();
    let primitives = work.flat.circuit.primitives().len();
    let outcome = outcome_of(alloc, work, limits);
    let Some(ending) = ending_for(limits.budget, outcome) else {
        return no_memory(out);
    };
    match measure_line(alloc, size, primitives, outcome, ending) {
        Ok(line) => answer(line.as_slice(), measure_status(ending), out),
        Err(_) => no_memory(out),
    }
}

/// Makes the work of a size, runs it within the usual limits, and writes what came of it in one
/// line. Nothing is fetched.
pub(crate) fn measure_work<S: Sink>(alloc: Global, size: u32, out: &mut S) -> Status
    requires some { 1 ≤ size }
    requires few { size ≤ 256 }
    ensures cases { Cases (MeasuresMade size)
        (sink_change S.told S.faults out.old out.new) result.code }
    ensures exact { IsExact (MeasuresMade size)
        (sink_change S.told S.faults out.old out.new) result.code }
    ensures status { IsAmong (statuses_of commands.Bench) result.code }
    ensures fair { IsFair (sink_change S.told S.faults out.old out.new) result.code }
    ensures tells { TellsFaults (sink_change S.told S.faults out.old out.new) result.code }
{
    match make_run(alloc, size) {
        Ok(work) => write_measure(alloc, size, work, out),
        Err(_) => no_memory(out),
    }
}

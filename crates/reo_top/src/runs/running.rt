//! A circuit and a script that are fetched and read, and their run.
ghost use Rattle.std.specs.Prelude.{[], ◌∷◌, ◌≤◌, ◌^◌, map};
ghost use Rattle.reo_kinds.specs.Kinds.{port_state_of};
ghost use Rattle.reo_command.specs.Readings.{CanRun, ReadsRun, StopsRun};
ghost use Rattle.reo_command.specs.declared.command.Command.TheVariants as commands;
ghost use Rattle.reo_command.specs.declared.role.Role.TheVariants as roles;
ghost use Rattle.reo_command.specs.top_base.Answered.{IsAnswered};
ghost use Rattle.reo_command.specs.top_base.Cases.{Cases, IsExact, IsFair, TellsFaults};
ghost use Rattle.reo_command.specs.Commands.{is_free};
ghost use Rattle.reo_top.specs.runs.Traces.{TracesRun};
ghost use Rattle.reo_command.specs.top_base.Owed.{owed_by};
ghost use Rattle.reo_command.specs.ReadSteps.{runnable_in};
ghost use Rattle.reo_command.specs.States.{files_change, sink_change};
ghost use Rattle.reo_command.specs.Statuses.{IsAmong, statuses_of};

use reo_command::{
    CircuitAndScript, DONE, LIMIT_REACHED, PART_OVER, STUCK, Status, WRITE_FAULT, no_memory,
    read_run, refuse,
};
use reo_io::{Files, Sink};
use reo_kinds::Kind;
use reo_runner::{End2, Limits, run};
use reo_runs::{known_order, one_trace};
use std::alloc::Global;

/// Runs a script on a circuit, and writes the trace.
fn write_trace<S: Sink>(
    alloc: Global,
    work: CircuitAndScript,
    limits: Limits,
    out: &mut S,
) -> Status
    requires some_budget { 1 ≤ limits.budget }
    requires small_budget { limits.budget ≤ 10 ^ 9 }
    requires some_round { 1 ≤ limits.rounds }
    requires few_rounds { limits.rounds ≤ 10 ^ 9 }
    requires fit { CanRun (map port_state_of work.flat.circuit.primitives)
        work.flat.circuit.ports work.flat.ports.list work.script.components }
    ensures cases { Cases (TracesRun limits (runnable_in work.flat work.script))
        (sink_change S.told S.faults out.old out.new) result.code }
    ensures exact { IsExact (TracesRun limits (runnable_in work.flat work.script))
        (sink_change S.told S.faults out.old out.new) result.code }
    ensures fair { IsFair (sink_change S.told S.faults out.old out.new) result.code }
    ensures tells { TellsFaults (sink_change S.told S.faults out.old out.new) result.code }
{
    let CircuitAndScript { flat, script } = work;
    known_order(&flat.circuit);
    one_trace::<Kind>();
    let outcome = run(alloc, flat, script, limits, out);
    match outcome.end {
        End2::Done => Status { code: DONE },
        End2::Stuck => Status { code: STUCK },
        End2::Limit => Status {
            code: LIMIT_REACHED,
        },
        End2::Spent { .. } => Status { code: PART_OVER },
        End2::Wide { .. } => Status { code: PART_OVER },
        End2::WriteFault => Status { code: WRITE_FAULT },
        End2::NoMemory => no_memory(out),
    }
}

/// Fetches the circuit and the script, reads them, and writes the trace of their run.
pub fn run_circuit<F: Files, S: Sink>(
    alloc: Global,
    circuit: &[u8],
    script: &[u8],
    limits: Limits,
    files: &mut F,
    out: &mut S,
) -> Status
    requires some_budget { 1 ≤ limits.budget }
    requires small_budget { limits.budget ≤ 10 ^ 9 }
    requires some_round { 1 ≤ limits.rounds }
    requires few_rounds { limits.rounds ≤ 10 ^ 9 }
    ensures answered { IsAnswered (is_free commands.Run)
        (owed_by ReadsRun StopsRun (TracesRun limits))
        (roles.Circuit ∷ roles.Script ∷ []) (circuit.now ∷ script.now ∷ [])
        (files_change F.told F.failed F.given F.long F.fetches files.old files.new)
        (sink_change S.told S.faults out.old out.new) result.code }
    ensures status { IsAmong (statuses_of commands.Run) result.code }
    ensures fair { IsFair (sink_change S.told S.faults out.old out.new) result.code }
    ensures tells { TellsFaults (sink_change S.told S.faults out.old out.new) result.code }
{
    match read_run(alloc, circuit, script, files) {
        Ok(work) => write_trace(alloc, work, limits, out),
        Err(stop) => refuse(alloc, stop, out),
    }
}

//! A circuit and a script that are fetched and read, and the proved text of their run.
ghost use Rattle.std.specs.Prelude.{◌≡◌, [], ◌∷◌, ◌≤◌, ◌^◌, map, true};
ghost use Rattle.reo_kinds.specs.Kinds.{port_state_of};
ghost use Rattle.reo_command.specs.Readings.{CanRun, ReadsRun, StopsRun};
ghost use Rattle.reo_command.specs.declared.command.Command.TheVariants as commands;
ghost use Rattle.reo_command.specs.declared.role.Role.TheVariants as roles;
ghost use Rattle.reo_command.specs.Commands.{is_free};
ghost use Rattle.reo_command.specs.Limits.{usual_limits};
ghost use Rattle.reo_command.specs.ReadSteps.{runnable_in};
ghost use Rattle.reo_command.specs.States.{files_change, sink_change};
ghost use Rattle.reo_command.specs.Statuses.{IsAmong, statuses_of};
ghost use Rattle.reo_command.specs.top_base.Answered.{IsAnswered};
ghost use Rattle.reo_command.specs.top_base.Cases.{Cases, IsExactFor, IsFair, TellsFaults};
ghost use Rattle.reo_command.specs.top_base.Owed.{owed_by};
ghost use Rattle.reo_top.specs.runs.ProvedRuns.{ProvesRun};
ghost use Rattle.reo_top.specs.runs.Traces.{ending_status};

use reo_command::{
    CircuitAndScript, DONE, LIMIT_REACHED, PART_OVER, STUCK, Status, WRITE_FAULT, no_memory,
    read_run, refuse, usual_limits,
};
use reo_io::{Files, Sink};
use reo_kinds::Kind;
use reo_proof_texts::proved_texts_are_of_runs;
use reo_proving::prove_run;
use reo_runner::Limits;
use reo_runs::{known_order, one_trace};
use reo_trace::{Ending, WriteFault};
use std::alloc::Global;

/// The status of an ending.
fn ending_status(ending: Ending) -> u8
    ensures { result ≡ ending_status ending }
{
    match ending {
        Ending::Done { .. } => DONE,
        Ending::Stuck { .. } => STUCK,
        Ending::Limit { .. } => LIMIT_REACHED,
        Ending::Spent { .. } | Ending::Wide { .. } => PART_OVER,
    }
}

/// Runs a script on a circuit, and writes a proved text of the run.
fn write_proved<S: Sink>(
    alloc: Global,
    work: CircuitAndScript,
    limits: Limits,
    out: &mut S,
) -> Status
    requires some_budget { 1 ≤ limits.budget }
    requires small_budget { limits.budget ≤ 10 ^ 9 }
    requires some_round { 1 ≤ limits.rounds }
    requires few_rounds { limits.rounds ≤ 10 ^ 9 }
    requires fit { CanRun (map port_state_of work.flat.circuit.primitives)
        work.flat.circuit.ports work.flat.ports.list work.script.components }
    ensures cases { Cases (ProvesRun limits (runnable_in work.flat work.script))
        (sink_change S.told S.faults out.old out.new) result.code }
    ensures exact { IsExactFor true (ProvesRun limits (runnable_in work.flat work.script))
        (sink_change S.told S.faults out.old out.new) result.code }
    ensures fair { IsFair (sink_change S.told S.faults out.old out.new) result.code }
    ensures tells { TellsFaults (sink_change S.told S.faults out.old out.new) result.code }
{
    let CircuitAndScript { flat, script } = work;
    known_order(&flat.circuit);
    one_trace::<Kind>();
    proved_texts_are_of_runs::<Kind>();
    match prove_run(alloc, flat, script, limits, out) {
        Ok(ending) => Status {
            code: ending_status(ending),
        },
        Err(WriteFault::Failed) => Status { code: WRITE_FAULT },
        Err(WriteFault::NoMemory) => no_memory(out),
    }
}

/// Fetches the circuit and the script, reads them, and writes a proved text of their run within the
/// usual limits.
pub fn prove_circuit<F: Files, S: Sink>(
    alloc: Global,
    circuit: &[u8],
    script: &[u8],
    files: &mut F,
    out: &mut S,
) -> Status
    ensures answered { IsAnswered (is_free commands.Prove)
        (owed_by ReadsRun StopsRun (ProvesRun usual_limits))
        (roles.Circuit ∷ roles.Script ∷ []) (circuit.now ∷ script.now ∷ [])
        (files_change F.told F.failed F.given F.long F.fetches files.old files.new)
        (sink_change S.told S.faults out.old out.new) result.code }
    ensures status { IsAmong (statuses_of commands.Prove) result.code }
    ensures fair { IsFair (sink_change S.told S.faults out.old out.new) result.code }
    ensures tells { TellsFaults (sink_change S.told S.faults out.old out.new) result.code }
{
    match read_run(alloc, circuit, script, files) {
        Ok(work) => write_proved(alloc, work, usual_limits(), out),
        Err(stop) => refuse(alloc, stop, out),
    }
}

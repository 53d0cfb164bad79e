//! The verdict on a trace that is fetched and read.
ghost use Rattle.std.specs.Prelude.{[], ◌∷◌, map};
ghost use Rattle.reo_kinds.specs.Kinds.{port_state_of};
ghost use Rattle.reo_command.specs.Readings.{CanRun};
ghost use Rattle.reo_runs.specs.verdicts.Replays.{HasText};
ghost use Rattle.reo_command.specs.declared.command.Command.TheVariants as commands;
ghost use Rattle.reo_command.specs.declared.role.Role.TheVariants as roles;
ghost use Rattle.reo_command.specs.top_base.Answered.{IsAnswered};
ghost use Rattle.reo_command.specs.top_base.Cases.{Cases, IsExact, IsFair, TellsFaults};
ghost use Rattle.reo_command.specs.Claims.{ReadsClaim, StopsVerify};
ghost use Rattle.reo_command.specs.Commands.{is_free};
ghost use Rattle.reo_top.specs.verdicts.Judged.{JudgesTrace};
ghost use Rattle.reo_command.specs.top_base.Owed.{owed_by};
ghost use Rattle.reo_command.specs.ReadSteps.{claimed_in};
ghost use Rattle.reo_command.specs.States.{files_change, sink_change};
ghost use Rattle.reo_command.specs.Statuses.{IsAmong, statuses_of};

use crate::verdicts::verdict::{verdict_line, verdict_status};
use reo_circuit_texts::{circuit_names_are_plain, circuits_are_spelled};
use reo_command::{CircuitAndScript, Claim, Status, answer, no_memory, read_claim, refuse};
use reo_io::{Files, Sink};
use reo_runs::ports_are_told;
use reo_trace_reader::one_trace_answer;
use reo_verify::verify_trace;
use std::alloc::Global;

/// Writes the verdict on a trace.
fn write_verdict<S: Sink>(alloc: Global, claim: Claim, out: &mut S) -> Status
    requires fit { CanRun (map port_state_of claim.work.flat.circuit.primitives)
        claim.work.flat.circuit.ports claim.work.flat.ports.list claim.work.script.components }
    requires text { HasText claim.work.flat.ports.list claim.trace }
    ensures cases { let claimed = claimed_in claim.work.flat claim.work.script claim.trace in
        Cases (JudgesTrace claimed) (sink_change S.told S.faults out.old out.new) result.code }
    ensures exact { let claimed = claimed_in claim.work.flat claim.work.script claim.trace in
        IsExact (JudgesTrace claimed) (sink_change S.told S.faults out.old out.new) result.code }
    ensures fair { IsFair (sink_change S.told S.faults out.old out.new) result.code }
    ensures tells { TellsFaults (sink_change S.told S.faults out.old out.new) result.code }
{
    let Claim {
        work: CircuitAndScript { flat, script },
        trace,
    } = claim;
    let Ok(verdict) = verify_trace(alloc, flat, script, &trace) else {
        return no_memory(out);
    };
    match verdict_line(alloc, &verdict) {
        Ok(line) => answer(line.as_slice(), verdict_status(&verdict), out),
        Err(_) => no_memory(out),
    }
}

/// Fetches the circuit, the script and the trace, reads them, and writes the verdict.
pub fn verify_claim<F: Files, S: Sink>(
    alloc: Global,
    circuit: &[u8],
    script: &[u8],
    trace: &[u8],
    files: &mut F,
    out: &mut S,
) -> Status
    ensures answered { IsAnswered (is_free commands.Verify)
        (owed_by ReadsClaim StopsVerify JudgesTrace)
        (roles.Circuit ∷ roles.Script ∷ roles.Trace ∷ [])
        (circuit.now ∷ script.now ∷ trace.now ∷ [])
        (files_change F.told F.failed F.given F.long F.fetches files.old files.new)
        (sink_change S.told S.faults out.old out.new) result.code }
    ensures status { IsAmong (statuses_of commands.Verify) result.code }
    ensures fair { IsFair (sink_change S.told S.faults out.old out.new) result.code }
    ensures tells { TellsFaults (sink_change S.told S.faults out.old out.new) result.code }
{
    circuit_names_are_plain();
    circuits_are_spelled();
    ports_are_told();
    one_trace_answer();
    match read_claim(alloc, circuit, script, trace, files) {
        Ok(claim) => write_verdict(alloc, claim, out),
        Err(stop) => refuse(alloc, stop, out),
    }
}

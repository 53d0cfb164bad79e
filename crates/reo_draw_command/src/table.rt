//! The table of a trace that is fetched and read.
ghost use Rattle.std.specs.Prelude.{◌≡◌, [], ◌∷◌, false, map, IfOk};
ghost use Rattle.reo_kinds.specs.Kinds.{port_state_of};
ghost use Rattle.reo_command.specs.Readings.{CanRun};
ghost use Rattle.reo_runs.specs.verdicts.Replays.{HasText};
ghost use Rattle.reo_command.specs.declared.role.Role.TheVariants as roles;
ghost use Rattle.reo_command.specs.Claims.{ReadsClaim, StopsVerify};
ghost use Rattle.reo_command.specs.ReadSteps.{claimed_in};
ghost use Rattle.reo_command.specs.States.{files_change, sink_change};
ghost use Rattle.reo_command.specs.Statuses.{IsAmong};
ghost use Rattle.reo_command.specs.top_base.Answered.{IsAnswered};
ghost use Rattle.reo_command.specs.top_base.Cases.{Cases, IsExact, IsFair, TellsFaults};
ghost use Rattle.reo_command.specs.top_base.Owed.{owed_by};
ghost use Rattle.reo_draw_rounds.specs.Tables.{table_text};
ghost use Rattle.reo_draw_command.specs.Tabled.{tabled_text, TablesTrace};
ghost use Rattle.reo_draw_command.specs.DrawStatuses.{statuses_of_table};

use reo_circuit_texts::{circuit_names_are_plain, circuits_are_spelled};
use reo_command::{CircuitAndScript, Claim, Status, answer, no_memory, read_claim, refuse};
use reo_draw_rounds::table_text;
use reo_io::{Files, Sink};
use reo_net_base::Port;
use reo_runs::ports_are_told;
use reo_top::{Verdict, verdict_line, verdict_status, verify_trace};
use reo_trace_reader::{TraceText, one_trace_answer};
use reo_values::{Bytes, NoMemory};
use std::alloc::Global;

/// What is written for a verdict: the table of a trace that is verified, and else the line of the
/// verdict. `NoMemory` is out of memory.
fn tabled_text(alloc: Global, table: Bytes, verdict: &Verdict) -> Result<Bytes, NoMemory>
    ensures { IfOk result (λ text. text ≡ tabled_text table verdict.now) }
{
    match verdict {
        Verdict::Verified { .. } => Ok(table),
        Verdict::Refused(_) => verdict_line(alloc, verdict),
    }
}

/// The table of a trace, all of whose lines are read for it. `NoMemory` is out of memory.
fn table_of(alloc: Global, ports: &[Port], trace: &TraceText) -> Result<Bytes, NoMemory>
    ensures { IfOk result (λ text. text ≡ table_text ports.now trace.now) }
{
    let trace = trace.whole(alloc)?;
    table_text(alloc, ports, &trace)
}

/// Writes the table of a trace, or why it is refused.
fn write_table<S: Sink>(alloc: Global, claim: Claim, out: &mut S) -> Status
    requires fit { CanRun (map port_state_of claim.work.flat.circuit.primitives)
        claim.work.flat.circuit.ports claim.work.flat.ports.list claim.work.script.components }
    requires text { HasText claim.work.flat.ports.list claim.trace }
    ensures cases { let claimed = claimed_in claim.work.flat claim.work.script claim.trace in
        Cases (TablesTrace claimed) (sink_change S.told S.faults out.old out.new) result.code }
    ensures exact { let claimed = claimed_in claim.work.flat claim.work.script claim.trace in
        IsExact (TablesTrace claimed) (sink_change S.told S.faults out.old out.new) result.code }
    ensures fair { IsFair (sink_change S.told S.faults out.old out.new) result.code }
    ensures tells { TellsFaults (sink_change S.told S.faults out.old out.new) result.code }
{
    let Claim {
        work: CircuitAndScript { flat, script },
        trace,
    } = claim;
    let Ok(table) = table_of(alloc, flat.ports.list.as_slice(), &trace) else {
        return no_memory(out);
    };
    let Ok(verdict) = verify_trace(alloc, flat, script, &trace) else {
        return no_memory(out);
    };
    match tabled_text(alloc, table, &verdict) {
        Ok(text) => answer(text.as_slice(), verdict_status(&verdict), out),
        Err(_) => no_memory(out),
    }
}

/// Fetches the circuit, the script and the trace, reads them, and writes the table of the trace, or
/// why it is refused.
pub(crate) fn draw_table<F: Files, S: Sink>(
    alloc: Global,
    circuit: &[u8],
    script: &[u8],
    trace: &[u8],
    files: &mut F,
    out: &mut S,
) -> Status
    ensures answered { IsAnswered false (owed_by ReadsClaim StopsVerify TablesTrace)
        (roles.Circuit ∷ roles.Script ∷ roles.Trace ∷ [])
        (circuit.now ∷ script.now ∷ trace.now ∷ [])
        (files_change F.told F.failed F.given F.long F.fetches files.old files.new)
        (sink_change S.told S.faults out.old out.new) result.code }
    ensures status { IsAmong statuses_of_table result.code }
    ensures fair { IsFair (sink_change S.told S.faults out.old out.new) result.code }
    ensures tells { TellsFaults (sink_change S.told S.faults out.old out.new) result.code }
{
    circuit_names_are_plain();
    circuits_are_spelled();
    ports_are_told();
    one_trace_answer();
    match read_claim(alloc, circuit, script, trace, files) {
        Ok(claim) => write_table(alloc, claim, out),
        Err(stop) => refuse(alloc, stop, out),
    }
}

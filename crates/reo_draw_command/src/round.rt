//! The picture of a round of a trace that is fetched and read.
ghost use Rattle.std.specs.Prelude.{◌≡◌, [], ◌∷◌, false, map, IfOk};
ghost use Rattle.reo_kinds.specs.Kinds.{port_state_of};
ghost use Rattle.reo_command.specs.Readings.{CanRun};
ghost use Rattle.reo_runs.specs.verdicts.Replays.{HasText};
ghost use Rattle.reo_command.specs.declared.role.Role.TheVariants as roles;
ghost use Rattle.reo_command.specs.Claims.{ReadsClaim, StopsVerify};
ghost use Rattle.reo_command.specs.ReadSteps.{claimed_in};
ghost use Rattle.reo_command.specs.States.{files_change, sink_change};
ghost use Rattle.reo_command.specs.Statuses.{IsAmong};
ghost use Rattle.reo_command.specs.top_base.Answered.{IsAnswered};
ghost use Rattle.reo_command.specs.top_base.Cases.{Cases, IsExact, IsFair, TellsFaults};
ghost use Rattle.reo_command.specs.top_base.Owed.{owed_by};
ghost use Rattle.reo_draw_command.specs.DrawStatuses.{statuses_of_round};
ghost use Rattle.reo_draw_command.specs.Rounds.{IsNumberOf, DrawsRound, shown_text, shown_status};

use reo_circuit_texts::{circuit_names_are_plain, circuits_are_spelled};
use reo_command::{
    CircuitAndScript, Claim, DONE, Status, TRACE_REFUSED, answer, no_memory, read_claim, refuse,
};
use reo_draw_replay::{Shown, show_round};
use reo_io::{Files, Sink};
use reo_runs::ports_are_told;
use reo_top::{Verdict, verdict_line};
use reo_trace_reader::one_trace_answer;
use reo_values::{Bytes, NoMemory, ReadFault, read_number};
use std::alloc::Global;

/// The trace has no round of that number.
pub const NO_ROUND: u8 = 15;

/// The number from 1 whose decimal text a word is, or 0 where it is that of none. `NoMemory` is out
/// of memory.
fn number_of(alloc: Global, word: &[u8]) -> Result<u64, NoMemory>
    ensures { IfOk result (IsNumberOf word.now) }
{
    match read_number(alloc, word, 1, i64::MAX) {
        Ok(number) => Ok(number as u64),
        Err(ReadFault::NotALiteral) => Ok(0),
        Err(ReadFault::NoMemory) => Err(NoMemory),
    }
}

/// What is written for what there is to show of a trace. `NoMemory` is out of memory.
fn shown_text(alloc: Global, shown: Shown) -> Result<Bytes, NoMemory>
    ensures { IfOk result (λ text. text ≡ shown_text shown) }
{
    match shown {
        Shown::Picture(picture) => Ok(picture),
        Shown::NoRound => Bytes::from_slice(alloc, b"draw refused: round\n"),
        Shown::Refused(refusal) => verdict_line(alloc, &Verdict::Refused(refusal)),
    }
}

/// Its status.
fn shown_status(shown: &Shown) -> u8
    ensures { result ≡ shown_status shown.now }
{
    match shown {
        Shown::Picture(_) => DONE,
        Shown::NoRound => NO_ROUND,
        Shown::Refused(_) => TRACE_REFUSED,
    }
}

/// Writes the picture of the round that a word names, or why there is none.
fn write_round<S: Sink>(alloc: Global, claim: Claim, word: &[u8], out: &mut S) -> Status
    requires fit { CanRun (map port_state_of claim.work.flat.circuit.primitives)
        claim.work.flat.circuit.ports claim.work.flat.ports.list claim.work.script.components }
    requires text { HasText claim.work.flat.ports.list claim.trace }
    ensures cases { let claimed = claimed_in claim.work.flat claim.work.script claim.trace in
        Cases (DrawsRound word.now claimed)
        (sink_change S.told S.faults out.old out.new) result.code }
    ensures exact { let claimed = claimed_in claim.work.flat claim.work.script claim.trace in
        IsExact (DrawsRound word.now claimed)
        (sink_change S.told S.faults out.old out.new) result.code }
    ensures fair { IsFair (sink_change S.told S.faults out.old out.new) result.code }
    ensures tells { TellsFaults (sink_change S.told S.faults out.old out.new) result.code }
{
    let Claim {
        work: CircuitAndScript { flat, script },
        trace,
    } = claim;
    let Ok(number) = number_of(alloc, word) else {
        return no_memory(out);
    };
    let Ok(shown) = show_round(alloc, flat, script, &trace, number) else {
        return no_memory(out);
    };
    let status = shown_status(&shown);
    match shown_text(alloc, shown) {
        Ok(text) => answer(text.as_slice(), status, out),
        Err(_) => no_memory(out),
    }
}

/// Fetches the circuit, the script and the trace, reads them, and writes the picture of the round
/// that a word names, or why there is none.
pub(crate) fn draw_round<F: Files, S: Sink>(
    alloc: Global,
    circuit: &[u8],
    script: &[u8],
    trace: &[u8],
    word: &[u8],
    files: &mut F,
    out: &mut S,
) -> Status
    ensures answered { IsAnswered false (owed_by ReadsClaim StopsVerify (DrawsRound word.now))
        (roles.Circuit ∷ roles.Script ∷ roles.Trace ∷ [])
        (circuit.now ∷ script.now ∷ trace.now ∷ [])
        (files_change F.told F.failed F.given F.long F.fetches files.old files.new)
        (sink_change S.told S.faults out.old out.new) result.code }
    ensures status { IsAmong statuses_of_round result.code }
    ensures fair { IsFair (sink_change S.told S.faults out.old out.new) result.code }
    ensures tells { TellsFaults (sink_change S.told S.faults out.old out.new) result.code }
{
    circuit_names_are_plain();
    circuits_are_spelled();
    ports_are_told();
    one_trace_answer();
    match read_claim(alloc, circuit, script, trace, files) {
        Ok(claim) => write_round(alloc, claim, word, out),
        Err(stop) => refuse(alloc, stop, out),
    }
}

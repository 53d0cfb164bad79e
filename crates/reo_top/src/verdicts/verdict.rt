//! The line of a verdict.
ghost use Rattle.std.specs.Prelude.{◌≡◌, ◌++◌, IfOk, OnOk};
ghost use Rattle.reo_runs.specs.declared.verdicts.verdict.Verdict.TheVariants as verdicts;
ghost use Rattle.reo_top.specs.verdicts.VerdictTexts.{refusal_words, verdict_line, verdict_status};

use reo_command::{DONE, TRACE_REFUSED};
use reo_proof_texts::{append_numbered, append_round, append_wrong};
use reo_values::{Bytes, NoMemory};
use reo_verify::{Refusal, Verdict};
use std::alloc::Global;

/// Adds why a trace is refused. `NoMemory` is out of memory.
fn append_refusal(alloc: Global, line: &mut Bytes, refusal: &Refusal) -> Result<(), NoMemory>
    ensures { OnOk result (line.new ≡ line.old ++ refusal_words refusal.now) }
{
    match refusal {
        Refusal::Line { line: number } => append_numbered(alloc, line, b"line ", *number),
        Refusal::Ended { round } => {
            append_round(alloc, line, *round)?;
            line.append(b"ended")
        }
        Refusal::Round { round, wrong, node } => {
            append_round(alloc, line, *round)?;
            append_wrong(alloc, line, *wrong, node.as_slice())
        }
        Refusal::Moves { round } => {
            append_round(alloc, line, *round)?;
            line.append(b"moves")
        }
        Refusal::End => line.append(b"end"),
    }
}

/// The line of a trace that is verified. `NoMemory` is out of memory.
fn verified_line(alloc: Global, rounds: u64, jammed: u64) -> Result<Bytes, NoMemory>
    ensures { IfOk result (λ line. line ≡ verdict_line (verdicts.Verified rounds jammed)) }
{
    let mut line = Bytes::new(alloc);
    append_numbered(alloc, &mut line, b"verified ", rounds)?;
    append_numbered(alloc, &mut line, b" rounds, ", jammed)?;
    line.append(b" jammed\n")?;
    Ok(line)
}

/// The line of a trace that is refused. `NoMemory` is out of memory.
fn refused_line(alloc: Global, refusal: &Refusal) -> Result<Bytes, NoMemory>
    ensures { IfOk result (λ line. line ≡ verdict_line (verdicts.Refused refusal.now)) }
{
    let mut line = Bytes::from_slice(alloc, b"verify refused: ")?;
    append_refusal(alloc, &mut line, refusal)?;
    line.append(b"\n")?;
    Ok(line)
}

/// The line of a verdict, its line feed included. `NoMemory` is out of memory.
pub fn verdict_line(alloc: Global, verdict: &Verdict) -> Result<Bytes, NoMemory>
    ensures { IfOk result (λ line. line ≡ verdict_line verdict.now) }
{
    match verdict {
        Verdict::Verified { rounds, jammed } => verified_line(alloc, *rounds, *jammed),
        Verdict::Refused(refusal) => refused_line(alloc, refusal),
    }
}

/// The status of a verdict.
pub fn verdict_status(verdict: &Verdict) -> u8
    ensures { result ≡ verdict_status verdict.now }
{
    match verdict {
        Verdict::Verified { .. } => DONE,
        Verdict::Refused(_) => TRACE_REFUSED,
    }
}

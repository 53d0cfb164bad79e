//! The line of a verdict on a proof text.
ghost use Rattle.std.specs.Prelude.{◌≡◌, ◌≢◌, ◌++◌, [], IfOk, OnOk, Ok as Verified, Err as Refused};
ghost use Rattle.reo_proof_texts.specs.declared.refusal.ProofRefusal.TheVariants as refusals;
ghost use Rattle.reo_proof_texts.specs.proof_verdict_texts.VerdictTexts.{refusal_words, proof_verdict_line};

use crate::ProofRefusal;
use crate::verdict_words::{append_numbered, append_round, append_wrong};
use reo_values::{Bytes, NoMemory};
use std::alloc::Global;

/// Adds why a proof text is refused. `NoMemory` is out of memory, here or before.
fn append_refusal(alloc: Global, line: &mut Bytes, refusal: &ProofRefusal) -> Result<(), NoMemory>
    ensures words { OnOk result (line.new ≡ line.old ++ refusal_words refusal.now) }
    ensures told { OnOk result (refusal.now ≢ refusals.NoMemory) }
{
    match refusal {
        ProofRefusal::Line { line: number } => append_numbered(alloc, line, b"line ", *number),
        ProofRefusal::Ended { round } => {
            append_round(alloc, line, *round)?;
            line.append(b"ended")
        }
        ProofRefusal::Round { round, wrong, node } => {
            append_round(alloc, line, *round)?;
            append_wrong(alloc, line, *wrong, node.as_slice())
        }
        ProofRefusal::Moves { round } => {
            append_round(alloc, line, *round)?;
            line.append(b"moves")
        }
        ProofRefusal::Wide { round } => {
            append_round(alloc, line, *round)?;
            line.append(b"wide")
        }
        ProofRefusal::Log {
            round,
            line: number,
        } => {
            append_round(alloc, line, *round)?;
            append_numbered(alloc, line, b"line ", *number)
        }
        ProofRefusal::End => line.append(b"end"),
        ProofRefusal::NoMemory => Err(NoMemory),
    }
}

/// The line of a proof text that is verified. `NoMemory` is out of memory.
fn proved_line(alloc: Global, rounds: u64) -> Result<Bytes, NoMemory>
    ensures { IfOk result (λ line. line ≡ proof_verdict_line (Verified rounds)) }
{
    let mut line = Bytes::new(alloc);
    append_numbered(alloc, &mut line, b"proved ", rounds)?;
    line.append(b" rounds\n")?;
    Ok(line)
}

/// The line of a proof text that is refused. `NoMemory` is out of memory, here or before.
fn refused_line(alloc: Global, refusal: &ProofRefusal) -> Result<Bytes, NoMemory>
    ensures line { IfOk result (λ line. line ≡ proof_verdict_line (Refused refusal.now)) }
    ensures told { OnOk result (refusal.now ≢ refusals.NoMemory) }
{
    let mut line = Bytes::from_slice(alloc, b"proof refused: ")?;
    append_refusal(alloc, &mut line, refusal)?;
    line.append(b"\n")?;
    Ok(line)
}

/// The line of a verdict, its line feed included. `NoMemory` is out of memory, here or before.
pub fn proof_verdict_line(
    alloc: Global,
    verdict: &Result<u64, ProofRefusal>,
) -> Result<Bytes, NoMemory>
    ensures line { IfOk result (λ line. line ≡ proof_verdict_line verdict.now) }
    ensures told { OnOk result (verdict.now ≢ Refused refusals.NoMemory) }
{
    match verdict {
        Ok(rounds) => proved_line(alloc, *rounds),
        Err(refusal) => refused_line(alloc, refusal),
    }
}

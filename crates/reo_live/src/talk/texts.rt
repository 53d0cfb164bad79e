//! The lines of answers.
ghost use Rattle.std.specs.Prelude.{◌≡◌, ◌++◌, OnOk, IfOk};
ghost use Rattle.std.specs.Fmt.{decimal};
ghost use Rattle.reo_trace.specs.EndingText.{ending_text};
ghost use Rattle.reo_trace.specs.declared.line.Ending.TheVariants as endings;
ghost use Rattle.reo_live.specs.base.Answers.{answer_text, end_text, fault_text, refusal_text};

use crate::base::{Answer, LineRefusal};
use reo_net_base::Ports;
use reo_trace::{Ending, ending_line_text, round_line_text};
use reo_values::{Bytes, NoMemory, append_decimal};
use std::alloc::Global;

/// The word of a cause.
fn fault_text(fault: LineRefusal) -> &'static [u8]
    ensures { result.now ≡ fault_text fault }
{
    match fault {
        LineRefusal::Long => b"long",
        LineRefusal::Form => b"form",
        LineRefusal::Port => b"port",
        LineRefusal::Way => b"way",
        LineRefusal::Pending => b"pending",
        LineRefusal::Outside => b"outside",
        LineRefusal::Nothing => b"none",
    }
}

/// The line of a refusal.
#[tactic(auto, unfolding(crate::specs::base::Answers::refusal_text))]
fn refusal_text(alloc: Global, line: u64, fault: LineRefusal) -> Result<Bytes, NoMemory>
    ensures { IfOk result (λ text. text ≡ refusal_text line fault) }
{
    let mut text = Bytes::from_slice(alloc, b"line ")?;
    append_decimal(alloc, &mut text, line as u128)?;
    text.append(b": ")?;
    text.append(fault_text(fault))?;
    text.append(b"\n")?;
    Ok(text)
}

/// The line that says that nothing further is judged.
#[tactic(auto, unfolding(crate::specs::base::Answers::end_text))]
fn end_text(alloc: Global, rounds: u64) -> Result<Bytes, NoMemory>
    ensures { IfOk result (λ text. text ≡ end_text rounds) }
{
    let mut text = Bytes::from_slice(alloc, b"end after ")?;
    append_decimal(alloc, &mut text, rounds as u128)?;
    text.append(b" rounds\n")?;
    Ok(text)
}

/// The line of a round that a part weighs too much for.
fn spent_text(
    alloc: Global,
    round: u64,
    knot: u64,
    weight: u64,
    budget: u64,
) -> Result<Bytes, NoMemory>
    ensures { IfOk result (λ text. text ≡ ending_text (endings.Spent round knot weight budget)) }
{
    let ending = Ending::Spent {
        round,
        knot,
        weight,
        budget,
    };
    ending_line_text(alloc, &ending)
}

/// The line of a round that a part is too wide for.
fn wide_text(alloc: Global, round: u64, knot: u64) -> Result<Bytes, NoMemory>
    ensures { IfOk result (λ text. text ≡ ending_text (endings.Wide round knot)) }
{
    ending_line_text(alloc, &Ending::Wide { round, knot })
}

/// The line of an answer, its line feed included. `NoMemory` is out of memory.
#[tactic(auto, unfolding(crate::specs::base::Answers::answer_text))]
pub(crate) fn answer_text(alloc: Global, ports: &Ports, answer: &Answer) -> Result<Bytes, NoMemory>
    ensures { IfOk result (λ text. text ≡ answer_text ports.now.list answer.now) }
{
    match answer {
        Answer::Refused { line, fault } => refusal_text(alloc, *line, *fault),
        Answer::Made { line } => round_line_text(alloc, ports, line),
        Answer::Ended { rounds } => end_text(alloc, *rounds),
        Answer::Wide { round, knot } => wide_text(alloc, *round, *knot),
        Answer::Spent {
            round,
            knot,
            weight,
            budget,
        } => spent_text(alloc, *round, *knot, *weight, *budget),
    }
}

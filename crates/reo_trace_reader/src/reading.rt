//! Reading whole traces, and single lines.
ghost use Rattle.std.specs.Prelude.{◌≡◌, Result, IfOk, IfErr, IsErrOf, MatchOption};
ghost use Rattle.reo_trace_reader.specs.declared.texts.trace.Trace.{Trace as ATrace};
ghost use Rattle.reo_trace_reader.specs.declared.texts.trace.TraceLine.{TraceLine as ALine};
ghost use Rattle.reo_trace_reader.specs.declared.texts.fault.TraceFault.{TraceFault as AFault};
ghost use Rattle.reo_trace_reader.specs.declared.texts.fault.LineFault.{LineFault as ALineFault};
ghost use Rattle.reo_trace_reader.specs.texts.Lines.{AreTold, IsEnding, IsLine};
ghost use Rattle.reo_trace_reader.specs.texts.Texts.{IsEndingText, IsRoundText};
ghost use Rattle.reo_trace.specs.declared.line.Ending.{Ending as AnEnding};
ghost use Rattle.reo_trace.specs.declared.line.RoundLine.{RoundLine as ARound};
ghost use Rattle.reo_trace.specs.EndingText.{ending_text};
ghost use Rattle.reo_trace.specs.RoundText.{round_text};
ghost use Rattle.reo_trace_reader.specs.Ends.{Anything};
ghost use Rattle.reo_trace_reader.specs.Fronts.{IsNext, NoEnding};
ghost use Rattle.reo_trace_reader.specs.Reads.{Stood, ReadsAgain};
ghost use Rattle.reo_trace_reader.specs.texts.Answers.{Answers, IsRead, IsThis, LineAnswers, IsLineRead, IsThisLine};

use crate::lines::{ending, round};
use crate::texts::{LineFault, Trace, TraceFault, TraceLine, one_line_answer, one_trace_answer};
use reo_net_base::Ports;
use reo_trace::{Ending, RoundLine};
use reo_values::{List, NoMemory, Unread};
use std::alloc::Global;

/// The line of the round of this number, with its line feed.
fn numbered_round(
    alloc: Global,
    reader: &mut Unread,
    ports: &Ports,
    number: u64,
) -> Result<RoundLine, LineFault>
    requires { AreTold ports.now.list }
    ensures stood { Stood (IsLine ports.now.list number) (round_text ports.now.list)
        result reader.old reader.new }
    ensures again { ReadsAgain (IsLine ports.now.list number) (round_text ports.now.list) Anything
        result reader.old reader.new }
{
    let line = round(alloc, reader, ports)?;
    if line.round != number {
        return Err(LineFault::Form);
    }
    if reader.word(b"\n") {
        Ok(line)
    } else {
        Err(LineFault::Form)
    }
}

/// The line of the round of this number, with its line feed, or None where it is not next: then
/// nothing is taken.
pub(crate) fn next_round<'a>(
    alloc: Global,
    reader: &mut Unread<'a>,
    ports: &Ports,
    number: u64,
) -> Result<Option<RoundLine>, NoMemory>
    requires { AreTold ports.now.list }
    ensures { IfOk result (IsNext ports.now.list number reader.old reader.new) }
{
    let before = reader.left();
    match numbered_round(alloc, reader, ports, number) {
        Ok(line) => Ok(Some(line)),
        Err(LineFault::Form) => {
            *reader = Unread::new(before);
            Ok(None)
        }
        Err(LineFault::NoMemory) => Err(NoMemory),
    }
}

/// An ending, with its line feed.
fn ended(reader: &mut Unread) -> Result<Ending, LineFault>
    ensures stood { Stood IsEnding ending_text result reader.old reader.new }
    ensures again { ReadsAgain IsEnding ending_text Anything result reader.old reader.new }
    ensures fault { IfErr result (λ fault. fault ≡ LineFault.Form) }
{
    let ending = ending(reader)?;
    if reader.word(b"\n") {
        Ok(ending)
    } else {
        Err(LineFault::Form)
    }
}

/// The ending that a text is, with its line feed.
pub(crate) fn last_line(text: &[u8]) -> Option<Ending>
    ensures { MatchOption result (NoEnding text.now)
        (λ ending. IsEnding ending × (text.now ≡ ending_text ending)) }
{
    let mut reader = Unread::new(text);
    let Ok(ending) = ended(&mut reader) else {
        return None;
    };
    if reader.is_done() { Some(ending) } else { None }
}

/// The ending that a line is, without its line feed.
fn whole_ending(line: &[u8]) -> Option<Ending>
    ensures { MatchOption result ((ending : AnEnding) → IsEndingText line.now ending → ⊥)
        (λ ending. IsEndingText line.now ending) }
{
    let mut reader = Unread::new(line);
    let Ok(ending) = ending(&mut reader) else {
        return None;
    };
    if reader.is_done() { Some(ending) } else { None }
}

/// The line of a round that a line is, without its line feed.
fn whole_round(alloc: Global, line: &[u8], ports: &Ports) -> Result<RoundLine, LineFault>
    requires { AreTold ports.now.list }
    ensures found { IfOk result (λ round. IsRoundText ports.now.list line.now round) }
    ensures none { IsErrOf result LineFault.Form → (round : ARound)
        → IsRoundText ports.now.list line.now round → ⊥ }
{
    let mut reader = Unread::new(line);
    let found = round(alloc, &mut reader, ports)?;
    if reader.is_done() {
        Ok(found)
    } else {
        Err(LineFault::Form)
    }
}

/// The trace that a text is, for the ports of its circuit: the lines of the rounds 1, 2, 3 and so
/// on, and one ending, each with its line feed.
///
/// # Errors
///
/// `Line` comes exactly where the text is no trace, with its first wrong line, from 1: the first
/// that is neither the line of the next round nor, as the last line, an ending; where the text ends
/// without an ending, the line after the last. A last line without line feed is wrong, and so is
/// line 1 of the empty text. `NoMemory` is out of memory.
pub fn read_trace(alloc: Global, text: &[u8], ports: &Ports) -> Result<Trace, TraceFault>
    requires { AreTold ports.now.list }
    ensures read { IsRead ports.now.list text.now result }
    ensures only { (answer : Result ATrace AFault) → Answers ports.now.list text.now answer
        → IsThis answer result }
{
    one_trace_answer();
    let mut rounds = List::new(alloc);
    let mut reader = Unread::new(text);
    let mut number = 1;
    while let Some(line) = next_round(alloc, &mut reader, ports, number)? {
        rounds.push(line)?;
        number += 1;
    }
    match last_line(reader.left()) {
        Some(ending) => Ok(Trace { rounds, ending }),
        None => Err(TraceFault::Line { line: number }),
    }
}

/// The line of a round, of any number, or the ending that a line is, for the ports of its circuit.
/// The line has no line feed.
///
/// # Errors
///
/// `Form` comes exactly where it is neither. `NoMemory` is out of memory.
pub fn read_line(alloc: Global, line: &[u8], ports: &Ports) -> Result<TraceLine, LineFault>
    requires { AreTold ports.now.list }
    ensures read { IsLineRead ports.now.list line.now result }
    ensures only { (answer : Result ALine ALineFault) → LineAnswers ports.now.list line.now answer
        → IsThisLine answer result }
{
    one_line_answer();
    if let Some(ending) = whole_ending(line) {
        return Ok(TraceLine::Ending(ending));
    }
    let round = whole_round(alloc, line, ports)?;
    Ok(TraceLine::Round(round))
}

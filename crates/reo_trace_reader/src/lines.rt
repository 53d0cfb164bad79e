//! Lines of traces, without their line feeds.
ghost use Rattle.std.specs.Prelude.{◌≡◌, ◌++◌, IfErr};
ghost use Rattle.std.specs.Fmt.{decimal};
ghost use Rattle.reo_values.specs.decimals.Digits.{IsSmall, NoDigit};
ghost use Rattle.reo_trace_reader.specs.texts.Lines.{AreTold, IsEnding};
ghost use Rattle.reo_trace_reader.specs.Ends.{Anything, BeginsNoDigit, EndsLine};
ghost use Rattle.reo_trace_reader.specs.Fronts.{IsAnyLine, IsPart, IsLoad, IsSpent, heading_text, round_front, part_text, load_text, spent_text, ending_front};
ghost use Rattle.reo_trace_reader.specs.Reads.{Stood, ReadsAgain};

use crate::cells::entries;
use crate::moves::read_flows;
use crate::number::number;
use crate::texts::LineFault;
use reo_net_base::Ports;
use reo_trace::{Ending, RoundLine};
use reo_values::Unread;
use std::alloc::Global;

/// A number behind this word.
fn number_after(reader: &mut Unread, word: &[u8]) -> Result<u64, LineFault>
    ensures stood { Stood IsSmall (λ n. word.now ++ decimal n) result reader.old reader.new }
    ensures again { ReadsAgain IsSmall (λ n. word.now ++ decimal n) NoDigit
        result reader.old reader.new }
    ensures fault { IfErr result (λ fault. fault ≡ LineFault.Form) }
{
    if reader.word(word) {
        number(reader)
    } else {
        Err(LineFault::Form)
    }
}

/// A number before this word, which begins with no digit.
fn number_before(reader: &mut Unread, word: &[u8]) -> Result<u64, LineFault>
    requires { BeginsNoDigit word.now }
    ensures stood { Stood IsSmall (λ n. decimal n ++ word.now) result reader.old reader.new }
    ensures again { ReadsAgain IsSmall (λ n. decimal n ++ word.now) Anything
        result reader.old reader.new }
    ensures fault { IfErr result (λ fault. fault ≡ LineFault.Form) }
{
    let number = number(reader)?;
    if reader.word(word) {
        Ok(number)
    } else {
        Err(LineFault::Form)
    }
}

/// The number of a round at the head of its line.
fn heading(reader: &mut Unread) -> Result<u64, LineFault>
    ensures stood { Stood IsSmall heading_text result reader.old reader.new }
    ensures again { ReadsAgain IsSmall heading_text Anything result reader.old reader.new }
{
    if reader.word(b"round ") {
        number_before(reader, b": ")
    } else {
        Err(LineFault::Form)
    }
}

/// The line of a round, of any number.
pub(crate) fn round(
    alloc: Global,
    reader: &mut Unread,
    ports: &Ports,
) -> Result<RoundLine, LineFault>
    requires { AreTold ports.now.list }
    ensures stood { Stood (IsAnyLine ports.now.list) (round_front ports.now.list)
        result reader.old reader.new }
    ensures again { ReadsAgain (IsAnyLine ports.now.list) (round_front ports.now.list) EndsLine
        result reader.old reader.new }
{
    let round = heading(reader)?;
    let flows = read_flows(alloc, reader, ports)?;
    let entries = entries(alloc, reader)?;
    Ok(RoundLine {
        round,
        idle: flows.idle,
        moves: flows.moves,
        entries,
    })
}

/// The numbers of a round and of a part.
#[derive(Clone, Copy)]
pub(crate) struct PartNumbers {
    pub round: u64,
    pub knot: u64,
}

/// The numbers of a round and of a part, with the words between.
fn read_part(reader: &mut Unread) -> Result<PartNumbers, LineFault>
    ensures stood { Stood IsPart part_text result reader.old reader.new }
    ensures again { ReadsAgain IsPart part_text NoDigit result reader.old reader.new }
    ensures fault { IfErr result (λ fault. fault ≡ LineFault.Form) }
{
    let round = number_before(reader, b": knot ")?;
    let knot = number(reader)?;
    Ok(PartNumbers { round, knot })
}

/// The weight of a part, and the budget.
#[derive(Clone, Copy)]
pub(crate) struct Load {
    pub weight: u64,
    pub budget: u64,
}

/// A weight and a budget, with the words before them.
fn read_load(reader: &mut Unread) -> Result<Load, LineFault>
    ensures stood { Stood IsLoad load_text result reader.old reader.new }
    ensures again { ReadsAgain IsLoad load_text NoDigit result reader.old reader.new }
    ensures fault { IfErr result (λ fault. fault ≡ LineFault.Form) }
{
    let weight = number_after(reader, b" weight ")?;
    let budget = number_after(reader, b" budget ")?;
    Ok(Load { weight, budget })
}

/// The ending of a part that is too heavy, behind its first words.
fn spent(reader: &mut Unread) -> Result<Ending, LineFault>
    ensures stood { Stood IsSpent spent_text result reader.old reader.new }
    ensures again { ReadsAgain IsSpent spent_text NoDigit result reader.old reader.new }
    ensures fault { IfErr result (λ fault. fault ≡ LineFault.Form) }
{
    let part = read_part(reader)?;
    let load = read_load(reader)?;
    Ok(Ending::Spent {
        round: part.round,
        knot: part.knot,
        weight: load.weight,
        budget: load.budget,
    })
}

/// An ending.
pub(crate) fn ending(reader: &mut Unread) -> Result<Ending, LineFault>
    ensures stood { Stood IsEnding ending_front result reader.old reader.new }
    ensures again { ReadsAgain IsEnding ending_front EndsLine result reader.old reader.new }
    ensures fault { IfErr result (λ fault. fault ≡ LineFault.Form) }
{
    if reader.word(b"done after ") {
        let rounds = number_before(reader, b" rounds")?;
        return Ok(Ending::Done { rounds });
    }
    if reader.word(b"stuck after ") {
        let rounds = number_before(reader, b" rounds")?;
        return Ok(Ending::Stuck { rounds });
    }
    if reader.word(b"limit after ") {
        let rounds = number_before(reader, b" rounds")?;
        return Ok(Ending::Limit { rounds });
    }
    if reader.word(b"wide in round ") {
        let part = read_part(reader)?;
        return Ok(Ending::Wide {
            round: part.round,
            knot: part.knot,
        });
    }
    if reader.word(b"spent in round ") {
        return spent(reader);
    }
    Err(LineFault::Form)
}

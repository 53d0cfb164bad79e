//! The texts of lines.
ghost use Rattle.std.specs.Prelude.{◌≡◌, ◌<◌, ◌++◌, IfOk, OnOk, codes};
ghost use Rattle.std.specs.Fmt.{decimal, signed_decimal};
ghost use Rattle.reo_values.specs.ItemText.{text_of};
ghost use Rattle.reo_trace.specs.EndingText.{ending_text};
ghost use Rattle.reo_trace.specs.declared.line.Ending.TheVariants.{Spent, Wide};
ghost use Rattle.reo_trace.specs.RoundText.{cell_text, entry_text, move_text, moves_text, round_text, sign_of};
ghost use Rattle.reo_trace.specs.Spaced.{gap, spaced};

use crate::{Cell, Ending, Entry, RoundLine};
use itoa::Buffer;
use reo_net_base::{Move, Ports, Way};
use reo_values::{Bytes, Kindred, NoMemory, Value, value_text};
use std::alloc::Global;

/// Adds a number in decimal. It takes no memory beside the text's.
pub fn append_number(text: &mut Bytes, number: u64) -> Result<(), NoMemory>
    ensures { OnOk result (text.new ≡ text.old ++ decimal number) }
{
    let mut buffer = Buffer::new();
    text.append(buffer.format(number).as_bytes())
}

/// Adds an item that is a number, in decimal. It takes no memory beside the text's.
fn append_int(text: &mut Bytes, number: i64) -> Result<(), NoMemory>
    ensures { OnOk result (text.new ≡ text.old ++ signed_decimal number) }
{
    if 0 <= number && number < 10 {
        return text.push(b'0' + number as u8);
    }
    let mut buffer = Buffer::new();
    text.append(buffer.format(number).as_bytes())
}

/// Adds an item. Only a text and a pair take memory beside the text's.
fn append_item(
    alloc: Global,
    text: &mut Bytes,
    item: &Value,
    kindred: &Kindred,
) -> Result<(), NoMemory>
    ensures { OnOk result (text.new ≡ text.old ++ text_of item.now kindred.now) }
{
    match (item, kindred) {
        (Value::Unit, Kindred::Unit) => text.append(b"unit"),
        (Value::Bool(true), Kindred::Bool) => text.append(b"true"),
        (Value::Bool(false), Kindred::Bool) => text.append(b"false"),
        (Value::Int(number), Kindred::Int(_, _)) => append_int(text, *number),
        (Value::Sym(place), Kindred::Sym(names)) => match names.get().get(*place as usize) {
            Some(name) => text.append(name.as_slice()),
            None => Ok(()),
        },
        _ => {
            let made = value_text(alloc, item, kindred)?;
            text.append(made.as_slice())
        }
    }
}

/// Adds the space before the thing at a place: none before the first.
fn append_gap(text: &mut Bytes, place: usize) -> Result<(), NoMemory>
    ensures { OnOk result (text.new ≡ text.old ++ gap place) }
{
    if place == 0 { Ok(()) } else { text.push(b' ') }
}

/// Adds the sign of a way.
fn append_sign(text: &mut Bytes, way: Way) -> Result<(), NoMemory>
    ensures { OnOk result (text.new ≡ text.old ++ sign_of way) }
{
    match way {
        Way::In => text.push(b'!'),
        Way::Out => text.push(b'?'),
    }
}

/// Adds what flowed at one port.
#[tactic(auto, unfolding(crate::specs::RoundText::move_text))]
fn append_move(alloc: Global, text: &mut Bytes, ports: &Ports, one: &Move) -> Result<(), NoMemory>
    ensures { OnOk result (text.new ≡ text.old ++ move_text ports.now.list one.now) }
{
    let Some(port) = ports.list.get(one.port) else {
        return Ok(());
    };
    text.append(port.name.as_slice())?;
    append_sign(text, port.way)?;
    append_item(alloc, text, &one.item, &port.kindred)
}

/// Adds what flowed at the ports, with single spaces between.
fn append_flows(
    alloc: Global,
    text: &mut Bytes,
    ports: &Ports,
    moves: &[Move],
) -> Result<(), NoMemory>
    ensures { OnOk result (text.new ≡ text.old ++ spaced (move_text ports.now.list) moves.now) }
{
    for (place, one) in moves.iter().enumerate() {
        append_gap(text, place)?;
        append_move(alloc, text, ports, one)?;
    }
    Ok(())
}

/// Adds the moves of a round. `NoMemory` is out of memory.
pub fn append_moves(
    alloc: Global,
    text: &mut Bytes,
    ports: &Ports,
    idle: bool,
    moves: &[Move],
) -> Result<(), NoMemory>
    ensures { OnOk result (text.new ≡ text.old ++ moves_text ports.now.list idle moves.now) }
{
    if idle {
        text.append(b"idle")
    } else if moves.is_empty() {
        text.append(b"-")
    } else {
        append_flows(alloc, text, ports, moves)
    }
}

/// Adds the row of one side.
fn append_cell(text: &mut Bytes, cell: Cell) -> Result<(), NoMemory>
    ensures { OnOk result (text.new ≡ text.old ++ cell_text cell) }
{
    match cell {
        Cell::Row(row) => append_number(text, u64::from(row)),
        Cell::Jam => text.append(b"j"),
    }
}

/// Adds the rows of one primitive.
#[tactic(auto, unfolding(crate::specs::RoundText::entry_text))]
fn append_entry(text: &mut Bytes, entry: Entry) -> Result<(), NoMemory>
    ensures { OnOk result (text.new ≡ text.old ++ entry_text entry) }
{
    match entry {
        Entry::One(cell) => append_cell(text, cell),
        Entry::Two(mouth, tail) => {
            append_cell(text, mouth)?;
            text.append(b".")?;
            append_cell(text, tail)
        }
    }
}

/// Adds the rows of all primitives, with single spaces between.
fn append_entries(text: &mut Bytes, entries: &[Entry]) -> Result<(), NoMemory>
    ensures { OnOk result (text.new ≡ text.old ++ spaced entry_text entries.now) }
{
    for (place, entry) in entries.iter().enumerate() {
        append_gap(text, place)?;
        append_entry(text, *entry)?;
    }
    Ok(())
}

/// The text of a round line, its line feed included. `NoMemory` is out of memory.
#[tactic(auto, unfolding(crate::specs::RoundText::round_text))]
pub fn round_line_text(alloc: Global, ports: &Ports, line: &RoundLine) -> Result<Bytes, NoMemory>
    ensures { IfOk result (λ text. text ≡ round_text ports.now.list line.now) }
{
    let mut text = Bytes::from_slice(alloc, b"round ")?;
    append_number(&mut text, line.round)?;
    text.append(b": ")?;
    append_moves(alloc, &mut text, ports, line.idle, line.moves.as_slice())?;
    text.append(b" | ")?;
    append_entries(&mut text, line.entries.as_slice())?;
    text.append(b"\n")?;
    Ok(text)
}

/// Words, a number of rounds, and the end of the line.
fn after_rounds(alloc: Global, words: &[u8], rounds: u64) -> Result<Bytes, NoMemory>
    ensures { IfOk result (λ text. text ≡ words.now ++ (decimal rounds ++ codes " rounds\n")) }
{
    let mut text = Bytes::from_slice(alloc, words)?;
    append_number(&mut text, rounds)?;
    text.append(b" rounds\n")?;
    Ok(text)
}

/// Words, the number of a round, words and the number of a part.
fn before_round(alloc: Global, words: &[u8], round: u64, knot: u64) -> Result<Bytes, NoMemory>
    ensures { IfOk result (λ text. text ≡ words.now ++
        (decimal round ++ (codes ": knot " ++ decimal knot))) }
{
    let mut text = Bytes::from_slice(alloc, words)?;
    append_number(&mut text, round)?;
    text.append(b": knot ")?;
    append_number(&mut text, knot)?;
    Ok(text)
}

/// Adds a weight and a budget, and the end of the line.
fn append_weight(text: &mut Bytes, weight: u64, budget: u64) -> Result<(), NoMemory>
    ensures { OnOk result (text.new ≡ text.old ++
        (codes " weight " ++ (decimal weight ++ (codes " budget " ++
        (decimal budget ++ codes "\n"))))) }
{
    text.append(b" weight ")?;
    append_number(text, weight)?;
    text.append(b" budget ")?;
    append_number(text, budget)?;
    text.append(b"\n")
}

/// The line of a round that a part is too heavy for.
#[tactic(auto, unfolding(crate::specs::EndingText::ending_text))]
fn spent_text(
    alloc: Global,
    round: u64,
    knot: u64,
    weight: u64,
    budget: u64,
) -> Result<Bytes, NoMemory>
    ensures { IfOk result (λ text. text ≡ ending_text (Spent round knot weight budget)) }
{
    let mut text = before_round(alloc, b"spent in round ", round, knot)?;
    append_weight(&mut text, weight, budget)?;
    Ok(text)
}

/// The line of a round that a part is too wide for.
#[tactic(auto, unfolding(crate::specs::EndingText::ending_text))]
fn wide_text(alloc: Global, round: u64, knot: u64) -> Result<Bytes, NoMemory>
    ensures { IfOk result (λ text. text ≡ ending_text (Wide round knot)) }
{
    let mut text = before_round(alloc, b"wide in round ", round, knot)?;
    text.append(b"\n")?;
    Ok(text)
}

/// The text of the last line, its line feed included. `NoMemory` is out of memory.
#[tactic(auto, unfolding(crate::specs::EndingText::ending_text))]
pub fn ending_line_text(alloc: Global, ending: &Ending) -> Result<Bytes, NoMemory>
    ensures { IfOk result (λ text. text ≡ ending_text ending.now) }
{
    match ending {
        Ending::Done { rounds } => after_rounds(alloc, b"done after ", *rounds),
        Ending::Stuck { rounds } => after_rounds(alloc, b"stuck after ", *rounds),
        Ending::Limit { rounds } => after_rounds(alloc, b"limit after ", *rounds),
        Ending::Spent {
            round,
            knot,
            weight,
            budget,
        } => spent_text(alloc, *round, *knot, *weight, *budget),
        Ending::Wide { round, knot } => wide_text(alloc, *round, *knot),
    }
}

//! Entries of round lines.
ghost use Rattle.std.specs.Prelude.{◌≡◌, false, true};
ghost use Rattle.std.specs.List.{All};
ghost use Rattle.reo_trace.specs.RoundText.{cell_text, entry_text};
ghost use Rattle.reo_trace.specs.Spaced.{spaced};
ghost use Rattle.reo_values.specs.decimals.Digits.{NoDigit};
ghost use Rattle.reo_trace_reader.specs.texts.Lines.{EndsEntry, IsCell, IsEntry};
ghost use Rattle.reo_trace_reader.specs.Ends.{EndsLine};
ghost use Rattle.reo_trace_reader.specs.Reads.{Stood, ReadsAgain};

use crate::number::number;
use crate::texts::LineFault;
use reo_trace::{Cell, Entry};
use reo_values::{List, Unread};
use std::alloc::Global;

/// Whether the line ends here: nothing is left, or a line feed is next.
fn ends_line(reader: &Unread) -> bool
    ensures yes { result ≡ true → EndsLine reader.now }
    ensures no { result ≡ false → EndsLine reader.now → ⊥ }
{
    match reader.left() {
        [] => true,
        [byte, ..] => *byte == b'\n',
    }
}

/// The row of one side.
fn cell(reader: &mut Unread) -> Result<Cell, LineFault>
    ensures stood { Stood IsCell cell_text result reader.old reader.new }
    ensures again { ReadsAgain IsCell cell_text NoDigit result reader.old reader.new }
{
    if reader.word(b"j") {
        return Ok(Cell::Jam);
    }
    let row = number(reader)?;
    if row < 1 << 32 {
        Ok(Cell::Row(row as u32))
    } else {
        Err(LineFault::Form)
    }
}

/// The rows of one primitive.
fn entry(reader: &mut Unread) -> Result<Entry, LineFault>
    ensures stood { Stood IsEntry entry_text result reader.old reader.new }
    ensures again { ReadsAgain IsEntry entry_text EndsEntry result reader.old reader.new }
{
    let mouth = cell(reader)?;
    if reader.word(b".") {
        let tail = cell(reader)?;
        Ok(Entry::Two(mouth, tail))
    } else {
        Ok(Entry::One(mouth))
    }
}

/// The rows of all primitives, to the end of the line.
pub(crate) fn entries(alloc: Global, reader: &mut Unread) -> Result<List<Entry>, LineFault>
    ensures stood { Stood (All IsEntry) (spaced entry_text) result reader.old reader.new }
    ensures again { ReadsAgain (All IsEntry) (spaced entry_text) EndsLine
        result reader.old reader.new }
{
    let mut made = List::new(alloc);
    if ends_line(reader) {
        return Ok(made);
    }
    let first = entry(reader)?;
    made.push(first)?;
    while reader.word(b" ") {
        let next = entry(reader)?;
        made.push(next)?;
    }
    Ok(made)
}

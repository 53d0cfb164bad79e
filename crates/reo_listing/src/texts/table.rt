//! The lines of one boundary table.
ghost use Rattle.std.specs.Prelude.{◌≡◌, ◌++◌, OnOk};
ghost use Rattle.reo_trace.specs.Spaced.{gap};
ghost use Rattle.reo_listing.specs.texts.TableTexts.{letter, letters, names_text, port_name, part_line, row_line, rows_text, table_text};

use crate::base::BoundaryTable;
use crate::texts::numbers::append_numbered;
use reo_net_base::{Mark, Port};
use reo_values::{Bytes, List, NoMemory};
use std::alloc::Global;

/// The letter of a mark.
fn letter(mark: Mark) -> u8
    ensures { result ≡ letter mark }
{
    match mark {
        Mark::F => b'F',
        Mark::G => b'G',
        Mark::R => b'R',
        Mark::J => b'J',
    }
}

/// Adds the letters of some marks.
fn append_letters(text: &mut Bytes, marks: &[Mark]) -> Result<(), NoMemory>
    ensures { OnOk result (text.new ≡ text.old ++ letters marks.now) }
{
    for mark in marks {
        text.push(letter(*mark))?;
    }
    Ok(())
}

/// Adds the line of a list of marks.
fn append_row(text: &mut Bytes, marks: &[Mark]) -> Result<(), NoMemory>
    ensures { OnOk result (text.new ≡ text.old ++ row_line marks.now) }
{
    append_letters(text, marks)?;
    text.append(b"\n")
}

/// Adds a line for each list of marks.
fn append_rows(text: &mut Bytes, rows: &[List<Mark>]) -> Result<(), NoMemory>
    ensures { OnOk result (text.new ≡ text.old ++ rows_text rows.now) }
{
    for row in rows {
        append_row(text, row.as_slice())?;
    }
    Ok(())
}

/// The name of a port.
fn port_name(ports: &[Port], number: usize) -> &[u8]
    ensures { result.now ≡ port_name ports.now number }
{
    match ports.get(number) {
        Some(port) => port.name.as_slice(),
        None => b"",
    }
}

/// Adds the space before the name at a place: none before the first.
fn append_gap(text: &mut Bytes, place: usize) -> Result<(), NoMemory>
    ensures { OnOk result (text.new ≡ text.old ++ gap place) }
{
    if place == 0 { Ok(()) } else { text.push(b' ') }
}

/// Adds the names of some ports, with single spaces between.
fn append_names(text: &mut Bytes, ports: &[Port], numbers: &[usize]) -> Result<(), NoMemory>
    ensures { OnOk result (text.new ≡ text.old ++ names_text ports.now numbers.now) }
{
    for (place, number) in numbers.iter().enumerate() {
        append_gap(text, place)?;
        text.append(port_name(ports, *number))?;
    }
    Ok(())
}

/// Adds the line of a part.
#[tactic(auto, unfolding(crate::specs::texts::TableTexts::part_line))]
fn append_part(
    alloc: Global,
    text: &mut Bytes,
    ports: &[Port],
    table: &BoundaryTable,
) -> Result<(), NoMemory>
    ensures { OnOk result (text.new ≡ text.old ++ part_line ports.now table.now) }
{
    append_numbered(alloc, text, b"part ", table.part as u128)?;
    text.append(b": ")?;
    append_names(text, ports, table.ports.as_slice())?;
    text.append(b"\n")
}

/// Adds the lines of a table. `NoMemory` is out of memory.
pub(crate) fn append_table(
    alloc: Global,
    text: &mut Bytes,
    ports: &[Port],
    table: &BoundaryTable,
) -> Result<(), NoMemory>
    ensures { OnOk result (text.new ≡ text.old ++ table_text ports.now table.now) }
{
    append_part(alloc, text, ports, table)?;
    append_rows(text, table.rows.as_slice())
}

//! The table of what moved at the ports of a circuit.
ghost use Rattle.std.specs.Prelude.{◌≡◌, ◌++◌, IfOk, OnOk, map, replicate};
ghost use Rattle.reo_trace.specs.Spaced.{gap};
ghost use Rattle.reo_draw_rounds.specs.Tables.{width_of, cell_at, padded, cells_text, rows_text, table_text};

use crate::columns::columns_of;
use reo_net_base::Port;
use reo_trace::ending_line_text;
use reo_trace_reader::Trace;
use reo_values::{Bytes, List, NoMemory};
use std::alloc::Global;

/// How wide a column is: as its longest cell.
fn width_of(column: &[Bytes]) -> usize
    ensures { result ≡ width_of column.now }
{
    let mut width = 0;
    for cell in column {
        width = cell.len().max(width);
    }
    width
}

/// A cell of a column, or the empty text.
fn cell_at(column: &[Bytes], row: usize) -> &[u8]
    ensures { result.now ≡ cell_at column.now row }
{
    match column.get(row) {
        Some(cell) => cell.as_slice(),
        None => b"",
    }
}

/// Adds so many spaces.
fn append_spaces(text: &mut Bytes, count: usize) -> Result<(), NoMemory>
    ensures { OnOk result (text.new ≡ text.old ++ replicate count 32) }
{
    for _space in 0..count {
        text.push(b' ')?;
    }
    Ok(())
}

/// Adds a cell of a column that is so wide at its right side.
fn append_padded(
    text: &mut Bytes,
    column: &[Bytes],
    width: usize,
    row: usize,
) -> Result<(), NoMemory>
    requires { width ≡ width_of column.now }
    ensures { OnOk result (text.new ≡ text.old ++ padded row column.now) }
{
    let cell = cell_at(column, row);
    append_spaces(text, width.saturating_sub(cell.len()))?;
    text.append(cell)
}

/// Adds the space before the cell at a place: none before the first.
fn append_gap(text: &mut Bytes, place: usize) -> Result<(), NoMemory>
    ensures { OnOk result (text.new ≡ text.old ++ gap place) }
{
    if place == 0 { Ok(()) } else { text.push(b' ') }
}

/// How wide each column is. `NoMemory` is out of memory.
fn widths_of(alloc: Global, columns: &[List<Bytes>]) -> Result<List<usize>, NoMemory>
    ensures { IfOk result (λ widths. widths ≡ map width_of columns.now) }
{
    let mut widths = List::new(alloc);
    for column in columns {
        widths.push(width_of(column.as_slice()))?;
    }
    Ok(widths)
}

/// Adds the cells of a row.
fn append_cells(
    text: &mut Bytes,
    columns: &[List<Bytes>],
    widths: &[usize],
    row: usize,
) -> Result<(), NoMemory>
    requires { widths.now ≡ map width_of columns.now }
    ensures { OnOk result (text.new ≡ text.old ++ cells_text row columns.now) }
{
    for (place, column) in columns.iter().enumerate() {
        append_gap(text, place)?;
        append_padded(text, column.as_slice(), widths[place], row)?;
    }
    Ok(())
}

/// Adds the lines of so many rows.
fn append_rows(
    text: &mut Bytes,
    columns: &[List<Bytes>],
    widths: &[usize],
    count: usize,
) -> Result<(), NoMemory>
    requires { widths.now ≡ map width_of columns.now }
    ensures { OnOk result (text.new ≡ text.old ++ rows_text columns.now count) }
{
    for row in 0..count {
        append_cells(text, columns, widths, row)?;
        text.append(b"\n")?;
    }
    Ok(())
}

/// The table of a trace: a line with the names of the columns, a line for each round, with its
/// number, a word for it, and for each port the item that moved there or a dot, and the line of
/// the ending. `NoMemory` is out of memory.
pub fn table_text(alloc: Global, ports: &[Port], trace: &Trace) -> Result<Bytes, NoMemory>
    ensures { IfOk result (λ text. text ≡ table_text ports.now trace.now) }
{
    let rounds = trace.rounds.as_slice();
    let columns = columns_of(alloc, ports, rounds)?;
    let widths = widths_of(alloc, columns.as_slice())?;
    let ending = ending_line_text(alloc, &trace.ending)?;
    let mut text = Bytes::new(alloc);
    append_rows(
        &mut text,
        columns.as_slice(),
        widths.as_slice(),
        rounds.len() + 1,
    )?;
    text.append(ending.as_slice())?;
    Ok(text)
}

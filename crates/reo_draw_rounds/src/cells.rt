//! What stands in the cells of a table.
ghost use Rattle.std.specs.Prelude.{◌≡◌, ◌==◌, IfOk, find, option_copied};
ghost use Rattle.reo_draw_rounds.specs.Cells.{is_jam, is_jammed, are_jammed, state_text, cell_text, move_at};

use reo_net_base::{Move, Port};
use reo_trace::{Cell, Entry, RoundLine};
use reo_values::{Bytes, NoMemory, value_text};
use std::alloc::Global;

/// Whether a cell of a line is the jam row.
fn is_jam(cell: Cell) -> bool
    ensures { result ≡ is_jam cell }
{
    match cell {
        Cell::Row(_) => false,
        Cell::Jam => true,
    }
}

/// Whether a primitive jams.
fn is_jammed(entry: Entry) -> bool
    ensures { result ≡ is_jammed entry }
{
    match entry {
        Entry::One(cell) => is_jam(cell),
        Entry::Two(mouth, tail) => is_jam(mouth) || is_jam(tail),
    }
}

/// Whether some primitive jams.
fn are_jammed(entries: &[Entry]) -> bool
    ensures { result ≡ are_jammed entries.now }
{
    entries.iter().any(|entry| is_jammed(*entry))
}

/// The word for a round.
pub(crate) fn state_word(line: &RoundLine) -> &'static [u8]
    ensures { result.now ≡ state_text line.now }
{
    match (line.idle, are_jammed(line.entries.as_slice())) {
        (false, false) => b"flow",
        (false, true) => b"flow,jam",
        (true, false) => b"idle",
        (true, true) => b"jam",
    }
}

/// What moved at a port, if something did.
fn move_at(moves: &[Move], number: usize) -> Option<&Move>
    ensures { option_copied result ≡ move_at moves.now number }
{
    moves.iter().find(|one| one.port == number)
}

/// The cell of a port in a round: the item that moved there, or a dot. `NoMemory` is out of memory.
pub(crate) fn cell_text(
    alloc: Global,
    port: &Port,
    number: usize,
    line: &RoundLine,
) -> Result<Bytes, NoMemory>
    ensures { IfOk result (λ text. text ≡ cell_text port.now number line.now) }
{
    match move_at(line.moves.as_slice(), number) {
        Some(moved) => value_text(alloc, &moved.item, &port.kindred),
        None => Bytes::from_slice(alloc, b"."),
    }
}

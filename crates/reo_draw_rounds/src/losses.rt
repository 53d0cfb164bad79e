//! Which primitives lose an item.
ghost use Rattle.std.specs.Prelude.{◌≡◌, IfOk};
ghost use Rattle.reo_draw_rounds.specs.Losses.{is_row, loses, loses_at, losses_of};

use reo_kinds::Kind;
use reo_trace::{Cell, Entry};
use reo_values::{List, NoMemory};
use std::alloc::Global;

/// Whether a cell is the row of a number.
fn is_row(cell: Cell, number: u32) -> bool
    ensures { result ≡ is_row cell number }
{
    match cell {
        Cell::Row(row) => row == number,
        Cell::Jam => false,
    }
}

/// Whether a primitive loses an item by its entry.
fn loses(kind: &Kind, entry: Entry) -> bool
    ensures { result ≡ loses kind.now entry }
{
    match (kind, entry) {
        (Kind::Lossy | Kind::Filter(_), Entry::One(cell)) => is_row(cell, 1),
        (Kind::Shift(buffer), Entry::Two(mouth, tail)) => {
            buffer.is_full() && is_row(mouth, 0) && !is_row(tail, 0)
        }
        _ => false,
    }
}

/// Whether the primitive of a number loses an item.
fn loses_at(entries: &[Entry], number: usize, kind: &Kind) -> bool
    ensures { result ≡ loses_at entries.now number kind.now }
{
    match entries.get(number) {
        Some(entry) => loses(kind, *entry),
        None => false,
    }
}

/// Whether each primitive loses an item. `NoMemory` is out of memory.
pub(crate) fn losses_of(
    alloc: Global,
    kinds: &[Kind],
    entries: &[Entry],
) -> Result<List<bool>, NoMemory>
    ensures { IfOk result (λ made. made ≡ losses_of kinds.now entries.now) }
{
    let mut made = List::new(alloc);
    for (number, kind) in kinds.iter().enumerate() {
        made.push(loses_at(entries, number, kind))?;
    }
    Ok(made)
}

//! The rows that the entries of a line say.
ghost use Rattle.std.specs.Prelude.{◌≡◌, ◌↔◌, ◌<◌, ◌^◌, ◌++◌, ℕ, IsTrue, IfOk, OnOk, MatchOption, false, length};
ghost use Rattle.reo_net_base.specs.Net.{net_of};
ghost use Rattle.reo_runs.specs.verdicts.Said.{cells_of, AreCounted, IsRowOf, HasRows, AreSaid};
ghost use Rattle.reo_runs.specs.verdicts.Wrongs.{IsRowBreak};
ghost use Rattle.reo_verify.specs.judging.Entries.{AreRowCells, HasNoRowCell, row_by, rows_by};

use reo_net_base::Primitive;
use reo_net_circuit::Circuit;
use reo_trace::{Cell, Entry};
use reo_values::{List, NoMemory};
use std::alloc::Global;

/// How many cells an entry has.
fn cell_count(entry: Entry) -> usize
    ensures { result ≡ length (cells_of entry) }
{
    match entry {
        Entry::One(_) => 1,
        Entry::Two(_, _) => 2,
    }
}

/// Whether entries are one for each primitive, each with a cell for each of its sides.
pub(crate) fn are_counted<P: Primitive>(circuit: &Circuit<P>, entries: &[Entry]) -> bool
    ensures { IsTrue result ↔ AreCounted (net_of P.behaviour circuit.now) entries.now }
{
    if entries.len() != circuit.primitives().len() {
        return false;
    }
    for index in 0..entries.len() {
        if cell_count(entries[index]) != circuit.primitive(index).sides() {
            return false;
        }
    }
    true
}

/// Whether a cell is a row of a side with so many rows.
fn is_row(rows: usize, cell: Cell) -> bool
    ensures { IsTrue result ↔ IsRowOf rows cell }
{
    match cell {
        Cell::Row(row) => row as usize + 1 < rows,
        Cell::Jam => true,
    }
}

/// Whether each cell of an entry of a primitive, which has a cell for each side, is a row of its
/// side.
fn are_row_cells<P: Primitive>(primitive: &P, entry: Entry) -> bool
    requires { length (cells_of entry) ≡ (P.behaviour primitive.now).sides }
    ensures are { IsTrue result → AreRowCells (P.behaviour primitive.now) entry }
    ensures are_not { result ≡ false → HasNoRowCell (P.behaviour primitive.now) entry }
{
    match entry {
        Entry::One(cell) => is_row(primitive.rows(0), cell),
        Entry::Two(mouth, tail) => {
            is_row(primitive.rows(0), mouth) && is_row(primitive.rows(1), tail)
        }
    }
}

/// The least primitive with a cell that is no row of its side.
pub(crate) fn row_break<P: Primitive>(circuit: &Circuit<P>, entries: &[Entry]) -> Option<usize>
    requires { AreCounted (net_of P.behaviour circuit.now) entries.now }
    ensures { let net = net_of P.behaviour circuit.now in
        let count = length circuit.now.primitives in
        MatchOption result ((i : ℕ) → i < count → HasRows net entries.now i)
        (IsRowBreak net entries.now) }
{
    for index in 0..entries.len() {
        if !are_row_cells(circuit.primitive(index), entries[index]) {
            return Some(index);
        }
    }
    None
}

/// The row of a cell of a side with so many rows, of which the last is the jam row.
fn row_of(rows: usize, cell: Cell) -> u32
    requires row { IsRowOf rows cell }
    requires some { 0 < rows }
    requires few { rows < 2 ^ 32 }
    ensures { result ≡ row_by rows cell }
{
    match cell {
        Cell::Row(row) => row,
        Cell::Jam => (rows - 1) as u32,
    }
}

/// Adds the rows of the cells of a primitive's entry. `NoMemory` is out of memory.
fn push_rows<P: Primitive>(
    primitive: &P,
    entry: Entry,
    rows: &mut List<u32>,
) -> Result<(), NoMemory>
    requires count { length (cells_of entry) ≡ (P.behaviour primitive.now).sides }
    requires are { AreRowCells (P.behaviour primitive.now) entry }
    ensures { OnOk result (rows.new ≡ rows.old ++ rows_by (P.behaviour primitive.now) entry) }
{
    match entry {
        Entry::One(cell) => rows.push(row_of(primitive.rows(0), cell)),
        Entry::Two(mouth, tail) => {
            rows.push(row_of(primitive.rows(0), mouth))?;
            rows.push(row_of(primitive.rows(1), tail))
        }
    }
}

/// The rows that entries say. `NoMemory` is out of memory.
pub(crate) fn rows_said<P: Primitive>(
    alloc: Global,
    circuit: &Circuit<P>,
    entries: &[Entry],
) -> Result<List<u32>, NoMemory>
    requires counted { AreCounted (net_of P.behaviour circuit.now) entries.now }
    requires rows { (i : ℕ) → i < length circuit.now.primitives
        → HasRows (net_of P.behaviour circuit.now) entries.now i }
    ensures { IfOk result (AreSaid (net_of P.behaviour circuit.now) entries.now) }
{
    circuit.known();
    let mut rows = List::new(alloc);
    for index in 0..entries.len() {
        push_rows(circuit.primitive(index), entries[index], &mut rows)?;
    }
    Ok(rows)
}

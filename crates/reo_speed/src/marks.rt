//! First colourings by marks, made over and over.
ghost use Rattle.std.specs.Prelude.{◌≡◌, ◌<◌, ℕ, IfOk, length, slice_index};
ghost use Rattle.reo_net_base.specs.Net.{net_of};
ghost use Rattle.reo_net_base.specs.Sides.{side_count};
ghost use Rattle.reo_net_laws.specs.Knots.{AreKnots, knot_count};
ghost use Rattle.reo_mark_search.specs.MarkFinding.{IsMarkSearch};

use reo_knots::Knots;
use reo_mark_search::{MarkFinding, MarkSearch};
use reo_net_base::Primitive;
use reo_net_circuit::{Circuit, ends_of};
use reo_values::{List, NoMemory};
use std::alloc::Global;

/// A row for each of so many sides, any. `NoMemory` is out of memory.
fn some_rows(alloc: Global, count: usize) -> Result<List<u32>, NoMemory>
    ensures { IfOk result (λ rows. length rows ≡ count) }
{
    match vec![in alloc; 0; count] {
        Ok(rows) => Ok(List::from_vec(rows)),
        Err(_) => Err(NoMemory),
    }
}

/// The rows of these sides alone. `NoMemory` is out of memory.
fn rows_at(alloc: Global, rows: &[u32], sides: &[usize]) -> Result<List<u32>, NoMemory>
    requires { (m : ℕ) → m < length sides.now → slice_index sides.now m < length rows.now }
{
    let mut made = List::new(alloc);
    for index in 0..sides.len() {
        made.push(rows[sides[index]])?;
    }
    Ok(made)
}

/// Searches a part by marks in the first round, so many times, and once at least, and writes the
/// rows that are found down.
fn search<P: Primitive>(
    circuit: &Circuit<P>,
    knots: &Knots,
    knot: usize,
    times: u32,
    marks: &mut MarkSearch,
    rows: &mut List<u32>,
) -> MarkFinding
    requires knots { AreKnots (net_of P.behaviour circuit.now) knots.now }
    requires knot { knot < knot_count knots.now }
    requires marks { IsMarkSearch (net_of P.behaviour circuit.now) marks.old }
    requires rows { length rows.old ≡ side_count (net_of P.behaviour circuit.now) }
    ensures { length rows.new ≡ length rows.old }
{
    let mut found = marks.search(circuit, knots, knot, 1, rows);
    for _ in 1..times {
        found = marks.search(circuit, knots, knot, 1, rows);
    }
    found
}

/// What a search by marks keeps of a circuit. `NoMemory` is out of memory.
fn marks_of<P: Primitive>(alloc: Global, circuit: &Circuit<P>) -> Result<MarkSearch, NoMemory>
    ensures { IfOk result (IsMarkSearch (net_of P.behaviour circuit.now)) }
{
    let ends = ends_of(alloc, circuit)?;
    MarkSearch::new(alloc, circuit, &ends)
}

/// The rows of the sides of a part, where marks tell them. `NoMemory` is out of memory.
fn told_rows(
    alloc: Global,
    found: MarkFinding,
    rows: &[u32],
    sides: &[usize],
) -> Result<Option<List<u32>>, NoMemory>
    requires { (m : ℕ) → m < length sides.now → slice_index sides.now m < length rows.now }
{
    match found {
        MarkFinding::Unknown => Ok(None),
        _ => Ok(Some(rows_at(alloc, rows, sides)?)),
    }
}

/// The rows of the first colouring of a part in the first round, found by marks so many times, and
/// once at least, after what a search keeps was made once; none where marks do not tell them.
pub fn colour_by_marks<P: Primitive>(
    alloc: Global,
    circuit: &Circuit<P>,
    knots: &Knots,
    knot: usize,
    times: u32,
) -> Result<Option<List<u32>>, NoMemory>
    requires knots { AreKnots (net_of P.behaviour circuit.now) knots.now }
    requires knot { knot < knot_count knots.now }
{
    circuit.known();
    let mut marks = marks_of(alloc, circuit)?;
    let mut rows = some_rows(alloc, circuit.sides())?;
    let found = search(circuit, knots, knot, times, &mut marks, &mut rows);
    told_rows(alloc, found, rows.as_slice(), knots.sides(knot))
}

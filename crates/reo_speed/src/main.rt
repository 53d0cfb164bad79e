//! First colourings of circuits that grow: a line of the input names a kind of circuit and its
//! size, which of its ports offer, and how many times the first colouring of its first part is
//! made, by values or, where the line ends with `marks`, by marks. Behind the line stand the rows
//! of its sides. The time of a run, less that of one with fewer times, is that of first colourings
//! alone.
#![tactic(auto)]

ghost use Rattle.std.specs.Prelude.{◌≡◌, ◌<◌};

mod circuits;
mod colourings;
mod lines;
mod marks;
mod offers;
mod shown;
mod texts;

use crate::circuits::circuit_of;
use crate::colourings::colour;
use crate::lines::{By, Request, request_of};
use crate::marks::colour_by_marks;
use crate::offers::offer_all;
use crate::shown::show_rows;
use crate::texts::text_of;
use reo_kinds::Kind;
use reo_knots::find_knots;
use reo_net_circuit::Circuit;
use reo_search::Exceeds;
use reo_steps::Steps;
use reo_values::{List, NoMemory};
use std::alloc::Global;
use std::io;
use std::marker::Brand;
use std::sync::ledger::{Blank, Ledger};

/// The circuit that a line asks for, with its offers, if there is one.
fn circuit_for(alloc: Global, request: Request<'_>) -> Result<Option<Circuit<Kind>>, NoMemory> {
    let Some(text) = text_of(alloc, request.kind, request.size)? else {
        return Ok(None);
    };
    match circuit_of(alloc, text.as_slice()) {
        None => Ok(None),
        Some(circuit) => {
            let mut circuit = circuit;
            offer_all(&mut circuit, request.offering);
            Ok(Some(circuit))
        }
    }
}

/// The rows of the first colouring of the first part, made so many times by a search, if there is a
/// part, and the search tells them.
fn first_rows<L: Ledger>(
    alloc: Global,
    circuit: &Circuit<Kind>,
    times: u32,
    by: By,
    steps: &mut Steps<L>,
) -> Result<Option<List<u32>>, Exceeds> {
    let knots = find_knots(alloc, circuit)?;
    if knots.count() == 0 {
        return Ok(None);
    }
    match by {
        By::Marks => Ok(colour_by_marks(alloc, circuit, &knots, 0, times)?),
        By::Values => {
            let part = colour(alloc, circuit, &knots, 0, times, steps)?;
            Ok(Some(part.rows))
        }
    }
}

/// The rows of the first colouring that a line asks for, if it asks for one.
fn rows_for<L: Ledger>(
    alloc: Global,
    line: &str,
    steps: &mut Steps<L>,
) -> Result<Option<List<u32>>, Exceeds> {
    let Some(request) = request_of(line) else {
        return Ok(None);
    };
    match circuit_for(alloc, request)? {
        None => Ok(None),
        Some(circuit) => first_rows(alloc, &circuit, request.times, request.by, steps),
    }
}

/// Shows what a line gives behind it.
fn show(rt: &HostRuntime, line: &str, found: Result<Option<List<u32>>, Exceeds>) -> io::Result<()> {
    print!(rt; "{line}:")?;
    match found {
        Ok(Some(rows)) => show_rows(rt, rows.as_slice()),
        Ok(None) => println!(rt; " nothing to colour"),
        Err(fault) => println!(rt; " {fault:?}"),
    }
}

/// Answers each line.
fn answer_all<L: Ledger>(rt: &HostRuntime, blank: Blank) -> io::Result<()>
    requires name { blank.name ≡ L.name }
    requires parts { blank.parts ≡ L.parts }
    requires some_part { 0 < L.parts }
{
    let mut steps = Steps::<L>::new(blank);
    for line in rt.lines(rt.alloc()) {
        let line = line?;
        let found = rows_for(rt.alloc(), line.as_str(), &mut steps);
        show(rt, line.as_str(), found)?;
    }
    Ok(())
}

fn main(rt: HostRuntime) -> io::Result<()> {
    answer_all::<Brand>(&rt, Blank::new(1))
}

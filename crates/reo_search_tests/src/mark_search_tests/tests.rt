//! Searches by marks, and the plain search.
ghost use Rattle.std.specs.Prelude.{◌≡◌, ◌≤◌, IfOk, length};
ghost use Rattle.reo_net_base.specs.Net.{net_of};
ghost use Rattle.reo_net_base.specs.Sides.{side_count};
ghost use Rattle.reo_kinds.specs.Kinds.{behaviour_of};

use crate::mark_search_tests::building::put_together;
use crate::mark_search_tests::cases::{CASES, Case};
use reo_kinds::Kind;
use reo_knots::find_knots;
use reo_mark_search::{MarkFinding, MarkSearch};
use reo_net::plain_first;
use reo_net_circuit::{Circuit, ends_of};
use reo_values::{List, NoMemory};
use std::alloc::Global;
use std::process::Abort;
use std::test::Fail;

/// So many rows, any.
fn some_rows(alloc: Global, count: usize) -> Result<List<u32>, NoMemory>
    ensures { IfOk result (λ made. length made ≡ count) }
{
    match vec![in alloc; 0; count] {
        Ok(rows) => Ok(List::from_vec(rows)),
        Err(_) => Err(NoMemory),
    }
}

/// What is found of a circuit: how many parts jam, or `None` where nothing is known of one.
fn searched(
    alloc: Global,
    circuit: &Circuit<Kind>,
    turn: u64,
    rows: &mut List<u32>,
) -> Result<Option<usize>, NoMemory>
    requires { length rows.old ≡ side_count (net_of behaviour_of circuit.now) }
{
    let knots = find_knots(alloc, circuit)?;
    let ends = ends_of(alloc, circuit)?;
    let mut search = MarkSearch::new(alloc, circuit, &ends)?;
    let mut jammed: usize = 0;
    for part in 0..knots.count() {
        match search.search(circuit, &knots, part, turn, rows) {
            MarkFinding::Rows => {}
            MarkFinding::Jam => jammed = jammed.saturating_add(1),
            MarkFinding::Unknown => return Ok(None),
        }
    }
    Ok(Some(jammed))
}

/// Whether all parts of a circuit are found, as the plain search finds them, or nothing is known
/// where this may be.
fn agrees(
    alloc: Global,
    circuit: &Circuit<Kind>,
    turn: u64,
    is_known: bool,
) -> Result<bool, NoMemory> {
    let mut rows = some_rows(alloc, circuit.sides())?;
    let found = searched(alloc, circuit, turn, &mut rows)?;
    let plain = plain_first(alloc, circuit, turn)?;
    Ok(match found {
        Some(_) => rows.as_slice() == plain.rows.as_slice(),
        None => !is_known,
    })
}

/// Whether a bit of a number is set.
fn is_set(number: usize, place: usize) -> bool
    requires { place ≤ 8 }
{
    (number >> place) & 1 == 1
}

/// Searches a circuit in a state of its ports, in four rounds.
fn check_state(rt: &impl Abort, alloc: Global, case: Case, state: usize) -> Result<(), Fail> {
    let mut ready = List::new(alloc);
    for port in 0..case.ports.min(8) {
        ready.push(is_set(state, port))?;
    }
    let circuit = put_together(rt, alloc, case.pieces, case.joints, ready.as_slice())?;
    for turn in 1..5u64 {
        let good = agrees(alloc, &circuit, turn, case.is_known)?;
        assert!(rt; good, "state {state}, round {turn}");
    }
    Ok(())
}

#[test]
fn finds_what_the_plain_search_finds(rt: HostRuntime) -> Result<(), Fail> {
    for index in 0..CASES.len() {
        for state in 0..8usize {
            check_state(&rt, rt.alloc(), CASES[index], state)?;
        }
    }
    Ok(())
}

//! What is left at the joints of the drain after a search begins, and after it begins anew.
ghost use Rattle.std.specs.Prelude.{◌≡◌, ◌<◌, ◌^◌, ℕ, true, [], IfSome, length, slice_index_or};
ghost use Rattle.reo_net_base.specs.Net.{net_of, all_sides};
ghost use Rattle.reo_net_circuit.specs.found_ends.Ends.{AreEnds};
ghost use Rattle.reo_net_laws.specs.Parts.{IsClosed};
ghost use Rattle.reo_net_laws.specs.Knots.{AreKnots, knot_count};
ghost use Rattle.reo_reach.specs.Supplied.{AreShort, IsSupply};
ghost use Rattle.reo_side_tables.specs.Boards.{AreBoards};
ghost use Rattle.reo_propagate.specs.Basis.{IsSearchOn};
ghost use Rattle.reo_propagate.specs.Queues.{among};

use crate::sets::{Table, sets_of};
use reo_knots::Knots;
use reo_net_base::Primitive;
use reo_net_circuit::{Circuit, ends_of};
use reo_propagate::{State, begin, begin_with, propagate, restart};
use reo_reach::Supply;
use reo_rows::Basis;
use reo_side_tables::boards_of;
use std::alloc::Global;

/// For each joint which values are there: RG, GR, GG, the jam, and the flow of the only item.
pub type Left = [[bool; 5]; 3];

/// Whether these values are there, and no others.
fn are_left(state: &State, want: &Left) -> bool {
    if state.alive.len() != 3 {
        return false;
    }
    for joint in 0..3 {
        if state.alive.width(joint) != 5 {
            return false;
        }
        for place in 0..5 {
            if state.alive.is_set(joint, place) != want[joint][place] {
                return false;
            }
        }
    }
    true
}

/// Whether these values are there where a search has begun, then when they are narrowed, when the
/// search begins anew, and when they are narrowed again.
fn goes_on<P: Primitive>(
    alloc: Global,
    basis: &Basis<'_, P>,
    sides: &[usize],
    state: &mut State,
    want: &[Left; 4],
) -> bool
    requires search { let net = net_of P.behaviour basis.now.circuit.now in
        IsSearchOn net basis.now (among sides.now) state.old }
    requires closed { IsClosed (net_of P.behaviour basis.now.circuit.now) (among sides.now) }
    requires sides { let net = net_of P.behaviour basis.now.circuit.now in
        (s : ℕ) → among sides.now s ≡ true → s < length (all_sides net.primitives) }
{
    let begun = are_left(state, &want[0]);
    let Ok(()) = propagate(basis, sides, state) else {
        return false;
    };
    let narrowed = are_left(state, &want[1]);
    let Ok(()) = restart(alloc, basis, sides, state) else {
        return false;
    };
    let anew = are_left(state, &want[2]);
    let Ok(()) = propagate(basis, sides, state) else {
        return false;
    };
    begun & narrowed & anew & are_left(state, &want[3])
}

/// A search that begins with these values, or with all: `None` is out of memory, or not a set for
/// each joint.
fn begun<P: Primitive>(
    alloc: Global,
    basis: &Basis<'_, P>,
    sides: &[usize],
    values: Option<Table>,
) -> Option<State>
    requires boards { AreBoards (net_of P.behaviour basis.now.circuit.now) basis.now.boards.now }
    requires ends { AreEnds (net_of P.behaviour basis.now.circuit.now) basis.now.ends.now }
    requires items { length basis.now.items.now ≡ length basis.now.circuit.now.joints }
    requires few { (j : ℕ) → length (slice_index_or basis.now.items.now j []) < 2 ^ 32 }
    ensures { let net = net_of P.behaviour basis.now.circuit.now in
        IfSome result (IsSearchOn net basis.now (among sides.now)) }
{
    let Some(values) = values else {
        return begin(
            alloc,
            basis.circuit,
            basis.boards,
            basis.ends,
            basis.items,
            sides,
        )
        .ok();
    };
    match sets_of(alloc, values) {
        Ok(sets) if sets.values.len() == basis.circuit.joint_count() => {
            begin_with(alloc, basis, sides, &sets).ok()
        }
        _ => None,
    }
}

/// Whether a search that begins so, over these tables, goes on so.
fn goes<P: Primitive>(
    alloc: Global,
    basis: &Basis<'_, P>,
    sides: &[usize],
    values: Option<Table>,
    want: &[Left; 4],
) -> bool
    requires boards { AreBoards (net_of P.behaviour basis.now.circuit.now) basis.now.boards.now }
    requires ends { AreEnds (net_of P.behaviour basis.now.circuit.now) basis.now.ends.now }
    requires items { length basis.now.items.now ≡ length basis.now.circuit.now.joints }
    requires few { (j : ℕ) → length (slice_index_or basis.now.items.now j []) < 2 ^ 32 }
    requires closed { IsClosed (net_of P.behaviour basis.now.circuit.now) (among sides.now) }
    requires sides { let net = net_of P.behaviour basis.now.circuit.now in
        (s : ℕ) → among sides.now s ≡ true → s < length (all_sides net.primitives) }
{
    match begun(alloc, basis, sides, values) {
        Some(mut state) => goes_on(alloc, basis, sides, &mut state, want),
        None => false,
    }
}

/// Whether a search of the first knot that begins with these values, or with all, goes on so.
pub fn is_begun<P: Primitive>(
    alloc: Global,
    circuit: &Circuit<P>,
    knots: &Knots,
    supply: &Supply,
    values: Option<Table>,
    want: &[Left; 4],
) -> bool
    requires knots { AreKnots (net_of P.behaviour circuit.now) knots.now }
    requires some { 0 < knot_count knots.now }
    requires supply { IsSupply (net_of P.behaviour circuit.now) supply.now }
    requires short { AreShort supply.now }
{
    let items = supply.lists();
    let sides = knots.sides(0);
    let Ok(ends) = ends_of(alloc, circuit) else {
        return false;
    };
    match boards_of(alloc, circuit, &ends) {
        Ok(boards) => {
            let basis = Basis {
                circuit,
                boards: &boards,
                ends: &ends,
                items,
            };
            goes(alloc, &basis, sides, values, want)
        }
        Err(_) => false,
    }
}

//! Holding a place to the number of a row.
ghost use Rattle.std.specs.Prelude.{◌≡◌, ◌<◌, ℕ, true, false, OnOk, length, slice_index_or, []};
ghost use Rattle.reo_net_base.specs.Net.{net_of, all_sides};
ghost use Rattle.reo_net_laws.specs.Ends.{IsRowOf};
ghost use Rattle.reo_net_laws.specs.Parts.{IsClosed};
ghost use Rattle.reo_side_tables.specs.Marks.{IsJointOf};
ghost use Rattle.reo_rows.specs.RowFlags.{flag};
ghost use Rattle.reo_rows.specs.Sets.{value_of};
ghost use Rattle.reo_propagate.specs.Basis.{IsSearchOn};
ghost use Rattle.reo_propagate.specs.Queues.{among};
ghost use Rattle.reo_walk.specs.Holding.{IsHeldTo, IsHeldSoFar, IsHeld};
ghost use Rattle.reo_walk.specs.Places.{side_of_place, value_suits};

use crate::place::{KeyPlace, side_of_place, suits};
use reo_net_base::Primitive;
use reo_net_circuit::Circuit;
use reo_propagate::{Loss, State, wake};
use reo_rows::{Basis, FLOWS, RowFlags, mark_seen};
use reo_side_tables::{giver_side, mark_at_joint, taker_side};
use reo_values::NoMemory;

/// What a joint lost, with a value more, by its place.
pub(crate) fn one_more(loss: Loss, code: usize) -> Loss
    ensures some { result.some ≡ true }
    ensures flow { result.flow ≡ false → (loss.flow ≡ false) × (code < 4) }
{
    Loss {
        some: true,
        flow: loss.flow || code >= FLOWS,
    }
}

/// Takes the values of a joint away that do not suit a row at a place.
fn hold_joint<P: Primitive>(
    circuit: &Circuit<P>,
    alive: &mut RowFlags,
    place: KeyPlace,
    row: usize,
    joint: usize,
) -> Loss
    requires one_set { length alive.old ≡ length circuit.now.joints }
    requires joint { IsJointOf (net_of P.behaviour circuit.now) (side_of_place place) joint }
    requires row { IsRowOf (net_of P.behaviour circuit.now) (side_of_place place) row }
    ensures { let net = net_of P.behaviour circuit.now in
        IsHeldTo net place row joint (length (slice_index_or alive.old joint [])) alive.old
        alive.new result }
{
    let side = side_of_place(place);
    let mark = mark_at_joint(circuit, side, row, joint);
    let mut loss = Loss {
        some: false,
        flow: false,
    };
    for code in 0..alive.width(joint) {
        if alive.is_set(joint, code) && !suits(place, mark_seen(circuit, side, joint, code), mark) {
            alive.clear(joint, code);
            loss = one_more(loss, code);
        }
    }
    loss
}

/// Holds a joint to what suits a row at a place. Where it lost a value its two sides wait, or can
/// stay.
fn hold_and_wake<P: Primitive>(
    basis: &Basis<'_, P>,
    sides: &[usize],
    state: &mut State,
    place: KeyPlace,
    row: usize,
    joint: usize,
) -> Result<(), NoMemory>
    requires search { let net = net_of P.behaviour basis.now.circuit.now in
        IsSearchOn net basis.now (among sides.now) state.old }
    requires closed { IsClosed (net_of P.behaviour basis.now.circuit.now) (among sides.now) }
    requires inside { among sides.now (side_of_place place) ≡ true }
    requires joint { let net = net_of P.behaviour basis.now.circuit.now in
        IsJointOf net (side_of_place place) joint }
    requires row { IsRowOf (net_of P.behaviour basis.now.circuit.now) (side_of_place place) row }
    ensures held { let net = net_of P.behaviour basis.now.circuit.now in
        OnOk result (IsHeldSoFar net place row state.old.alive state.new.alive) }
    ensures suits { let net = net_of P.behaviour basis.now.circuit.now in
        OnOk result ((c : ℕ) → flag state.new.alive joint c ≡ true
        → value_suits net place row joint (value_of c) ≡ true) }
    ensures search { let net = net_of P.behaviour basis.now.circuit.now in
        OnOk result (IsSearchOn net basis.now (among sides.now) state.new) }
{
    let _ = sides;
    basis.circuit.known();
    let giver = giver_side(basis.circuit, joint);
    let taker = taker_side(basis.circuit, joint);
    let loss = hold_joint(basis.circuit, &mut state.alive, place, row, joint);
    if loss.some {
        wake(
            basis,
            &state.alive,
            &mut state.rows,
            &mut state.queue,
            giver,
            joint,
            loss.flow,
        )?;
        wake(
            basis,
            &state.alive,
            &mut state.rows,
            &mut state.queue,
            taker,
            joint,
            loss.flow,
        )?;
    }
    Ok(())
}

/// Holds a place to the number of a row. The sides where anything goes wait, or can stay.
pub(crate) fn hold<P: Primitive>(
    basis: &Basis<'_, P>,
    sides: &[usize],
    state: &mut State,
    place: KeyPlace,
    row: usize,
) -> Result<(), NoMemory>
    requires search { let net = net_of P.behaviour basis.now.circuit.now in
        IsSearchOn net basis.now (among sides.now) state.old }
    requires closed { IsClosed (net_of P.behaviour basis.now.circuit.now) (among sides.now) }
    requires side { let net = net_of P.behaviour basis.now.circuit.now in
        side_of_place place < length (all_sides net.primitives) }
    requires inside { among sides.now (side_of_place place) ≡ true }
    requires row { IsRowOf (net_of P.behaviour basis.now.circuit.now) (side_of_place place) row }
    ensures held { let net = net_of P.behaviour basis.now.circuit.now in
        OnOk result (IsHeld net place row state.old.alive state.new.alive) }
    ensures search { let net = net_of P.behaviour basis.now.circuit.now in
        OnOk result (IsSearchOn net basis.now (among sides.now) state.new) }
{
    let joints = &basis.boards.at(side_of_place(place)).joints;
    for index in 0..joints.len() {
        let joint = *joints.at(index);
        hold_and_wake(basis, sides, state, place, row, joint)?;
    }
    Ok(())
}

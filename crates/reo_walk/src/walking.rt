//! From place to place: each gets the least number of a row that works there.
ghost use Rattle.std.specs.Prelude.{◌≡◌, ◌<◌, ◌+◌, ℕ, true, [], IfOk, OnOk, MatchOption, length, slice_index_or};
ghost use Rattle.reo_net_base.specs.Net.{net_of, all_sides, row_count};
ghost use Rattle.reo_net_laws.specs.Parts.{IsClosed};
ghost use Rattle.reo_side_tables.specs.Marks.{side_in};
ghost use Rattle.reo_rows.specs.RowFlags.{flag, AreAlikeTables};
ghost use Rattle.reo_rows.specs.Sets.{family_of, names_of};
ghost use Rattle.reo_propagate.specs.Basis.{IsSearchOn};
ghost use Rattle.reo_propagate.specs.Queues.{among};
ghost use Rattle.reo_walk.specs.declared.place.KeyPlace.{KeyPlace as Spot};
ghost use Rattle.reo_walk.specs.Places.{side_of_place};
ghost use Rattle.reo_walk.specs.Settling.{HasNone};
ghost use Rattle.reo_walk.specs.Walking.{IsWalked, IsStuck, IsStepped, IsBest, IsLeastBelow, NoneLive};

use crate::hold::hold;
use crate::place::{KeyPlace, number_of, side_of_place};
use reo_net_base::Primitive;
use reo_net_circuit::Circuit;
use reo_propagate::{State, propagate};
use reo_rows::{Basis, RowFlags};
use reo_values::{List, NoMemory};
use std::alloc::Global;

/// A row with the least number at a place, and whether another row has another number there.
#[derive(Clone, Copy, Debug, PartialEq, Eq)]
pub(crate) struct Least {
    pub row: usize,
    pub number: usize,
    pub alone: bool,
}

/// The least of the first rows, and of one more.
fn consider<P: Primitive>(
    circuit: &Circuit<P>,
    live: &RowFlags,
    place: KeyPlace,
    turn: u64,
    best: Option<Least>,
    row: usize,
) -> Option<Least>
    requires side { let net = net_of P.behaviour circuit.now in
        side_of_place place < length (all_sides net.primitives) }
    requires sides { let net = net_of P.behaviour circuit.now in
        length live.now ≡ length (all_sides net.primitives) }
    requires width { let net = net_of P.behaviour circuit.now in
        length (slice_index_or live.now (side_of_place place) []) ≡ row_count
        (side_in net (side_of_place place)) }
    requires row { row < length (slice_index_or live.now (side_of_place place) []) }
    requires best { IsBest (net_of P.behaviour circuit.now) turn place live.now row best }
    ensures { IsBest (net_of P.behaviour circuit.now) turn place live.now (row + 1) result }
{
    if !live.is_set(side_of_place(place), row) {
        return best;
    }
    let number = number_of(circuit, place, row, turn);
    match best {
        None => Some(Least {
            row,
            number,
            alone: true,
        }),
        Some(best) => {
            let alone = best.alone && number == best.number;
            if number < best.number {
                Some(Least { row, number, alone })
            } else {
                Some(Least {
                    row: best.row,
                    number: best.number,
                    alone,
                })
            }
        }
    }
}

/// The row with its flag that puts the least number at a place.
pub(crate) fn least_row<P: Primitive>(
    circuit: &Circuit<P>,
    live: &RowFlags,
    place: KeyPlace,
    turn: u64,
) -> Option<Least>
    requires side { let net = net_of P.behaviour circuit.now in
        side_of_place place < length (all_sides net.primitives) }
    requires sides { let net = net_of P.behaviour circuit.now in
        length live.now ≡ length (all_sides net.primitives) }
    requires width { let net = net_of P.behaviour circuit.now in
        length (slice_index_or live.now (side_of_place place) []) ≡ row_count
        (side_in net (side_of_place place)) }
    ensures { let net = net_of P.behaviour circuit.now in
        IsBest net turn place live.now (length (slice_index_or live.now (side_of_place place) []))
        result }
{
    let mut best = None;
    for row in 0..live.width(side_of_place(place)) {
        best = consider(circuit, live, place, turn, best, row);
    }
    best
}

/// Holds a place to the least number of a row that works there, if one does. Where all of them have
/// that number, nothing is to be held.
fn step<P: Primitive>(
    basis: &Basis<'_, P>,
    sides: &[usize],
    state: &mut State,
    place: KeyPlace,
    turn: u64,
) -> Result<Option<usize>, NoMemory>
    requires search { let net = net_of P.behaviour basis.now.circuit.now in
        IsSearchOn net basis.now (among sides.now) state.old }
    requires closed { IsClosed (net_of P.behaviour basis.now.circuit.now) (among sides.now) }
    requires sides { let net = net_of P.behaviour basis.now.circuit.now in
        (s : ℕ) → among sides.now s ≡ true → s < length (all_sides net.primitives) }
    requires inside { among sides.now (side_of_place place) ≡ true }
    requires empty { state.old.queue.line ≡ [] }
    ensures found { let net = net_of P.behaviour basis.now.circuit.now in
        IfOk result (λ found. MatchOption found (HasNone net (names_of basis.now.items.now)
        (among sides.now) (family_of state.old.alive))
        (IsStepped net (names_of basis.now.items.now) (among sides.now) turn place
        (family_of state.old.alive) (family_of state.new.alive))) }
    ensures alike { OnOk result (AreAlikeTables state.old.alive state.new.alive) }
    ensures search { let net = net_of P.behaviour basis.now.circuit.now in
        OnOk result (IsSearchOn net basis.now (among sides.now) state.new) }
    ensures empty { OnOk result (state.new.queue.line ≡ []) }
{
    basis.circuit.known();
    match least_row(basis.circuit, &state.rows.live, place, turn) {
        None => Ok(None),
        Some(least) => {
            if !least.alone {
                hold(basis, sides, state, place, least.row)?;
                propagate(basis, sides, state)?;
            }
            Ok(Some(least.number))
        }
    }
}

/// Goes through places, and gives each the least number of a row that works there with what is
/// left.
///
/// `None` where the walk cannot go on. On a knot where each loop joint had one value from the
/// start, that says that there was no assignment.
pub fn walk<P: Primitive>(
    alloc: Global,
    basis: &Basis<'_, P>,
    sides: &[usize],
    state: &mut State,
    places: &[KeyPlace],
    turn: u64,
) -> Result<Option<List<usize>>, NoMemory>
    requires search { let net = net_of P.behaviour basis.now.circuit.now in
        IsSearchOn net basis.now (among sides.now) state.old }
    requires closed { IsClosed (net_of P.behaviour basis.now.circuit.now) (among sides.now) }
    requires sides { let net = net_of P.behaviour basis.now.circuit.now in
        (s : ℕ) → among sides.now s ≡ true → s < length (all_sides net.primitives) }
    requires some_side { 0 < length sides.now }
    requires places { (k : ℕ) (d : Spot) → k < length places.now
        → among sides.now (side_of_place (slice_index_or places.now k d)) ≡ true }
    ensures found { let net = net_of P.behaviour basis.now.circuit.now in
        IfOk result (λ found. MatchOption found (IsStuck net (names_of basis.now.items.now)
        (among sides.now) (family_of state.old.alive))
        (IsWalked net (names_of basis.now.items.now) (among sides.now) turn
        (family_of state.old.alive) (family_of state.new.alive) places.now)) }
    ensures alike { OnOk result (AreAlikeTables state.old.alive state.new.alive) }
    ensures search { let net = net_of P.behaviour basis.now.circuit.now in
        OnOk result (IsSearchOn net basis.now (among sides.now) state.new) }
{
    basis.circuit.known();
    propagate(basis, sides, state)?;
    let mut chosen = List::new(alloc);
    for index in 0..places.len() {
        match step(basis, sides, state, places[index], turn)? {
            None => return Ok(None),
            Some(number) => chosen.push(number)?,
        }
    }
    match least_row(
        basis.circuit,
        &state.rows.live,
        KeyPlace::Row(sides[0]),
        turn,
    ) {
        None => Ok(None),
        Some(_) => Ok(Some(chosen)),
    }
}

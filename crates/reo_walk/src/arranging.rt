//! The first assignment of a knot.
ghost use Rattle.std.specs.Prelude.{◌≡◌, ◌<◌, ◌+◌, ◌^◌, ℕ, true, IfOk, OnOk, MatchOption, length, slice_index_or, []};
ghost use Rattle.reo_net_base.specs.Net.{net_of, all_sides};
ghost use Rattle.reo_net_laws.specs.Parts.{IsKnot};
ghost use Rattle.reo_net_circuit.specs.found_ends.Ends.{AreEnds};
ghost use Rattle.reo_net_laws.specs.Knots.{AreKnots, in_knot, knot_count};
ghost use Rattle.reo_support.specs.Sets.{OneAtLoops};
ghost use Rattle.reo_side_tables.specs.Boards.{AreBoards};
ghost use Rattle.reo_rows.specs.Sets.{family_of, names_of};
ghost use Rattle.reo_propagate.specs.Queues.{among};
ghost use Rattle.reo_propagate.specs.Basis.{IsSearchOn};
ghost use Rattle.reo_propagate.specs.ListedSets.{listed, AreInSupply};
ghost use Rattle.reo_walk.specs.declared.place.KeyPlace.{KeyPlace as Spot};
ghost use Rattle.reo_walk.specs.Places.{side_of_place};
ghost use Rattle.reo_walk.specs.Settling.{HasNone, IsFirstWith};
ghost use Rattle.reo_walk.specs.Arranged.{HasNoAssignment, IsFirstPart};
ghost use Rattle.reo_walk.specs.Wanted.{IsWanted, in_wanted};

use crate::part::{Part, part_of};
use crate::place::KeyPlace;
use crate::places::places_of;
use crate::walking::walk;
use crate::wanted::Wanted;
use reo_knots::Knots;
use reo_net_base::Primitive;
use reo_net_circuit::ends_of;
use reo_propagate::{Sets, State, begin_with};
use reo_rows::Basis;
use reo_side_tables::boards_of;
use reo_steps::Steps;
use reo_values::{List, NoMemory};
use std::alloc::Global;
use std::sync::ledger::Ledger;

/// The numbers of the first assignment of a knot with values in the sets of a search, by these
/// places: `None` exactly where there is none.
pub fn first_by<P: Primitive>(
    alloc: Global,
    basis: &Basis<'_, P>,
    sides: &[usize],
    state: &mut State,
    places: &[KeyPlace],
    turn: u64,
) -> Result<Option<List<usize>>, NoMemory>
    requires search { let net = net_of P.behaviour basis.now.circuit.now in
        IsSearchOn net basis.now (among sides.now) state.old }
    requires knot { IsKnot (net_of P.behaviour basis.now.circuit.now) (among sides.now) }
    requires sides { let net = net_of P.behaviour basis.now.circuit.now in
        (s : ℕ) → among sides.now s ≡ true → s < length (all_sides net.primitives) }
    requires some_side { 0 < length sides.now }
    requires places { (k : ℕ) (d : Spot) → k < length places.now
        → among sides.now (side_of_place (slice_index_or places.now k d)) ≡ true }
    requires one { let net = net_of P.behaviour basis.now.circuit.now in
        OneAtLoops net (among sides.now) (family_of state.old.alive) }
    ensures first { let net = net_of P.behaviour basis.now.circuit.now in
        IfOk result (λ found. MatchOption found (HasNone net (names_of basis.now.items.now)
        (among sides.now) (family_of state.old.alive))
        (IsFirstWith net (names_of basis.now.items.now) (among sides.now) turn
        (family_of state.old.alive) places.now)) }
    ensures search { let net = net_of P.behaviour basis.now.circuit.now in
        OnOk result (IsSearchOn net basis.now (among sides.now) state.new) }
{
    match walk(alloc, basis, sides, state, places, turn)? {
        None => Ok(None),
        Some(chosen) => Ok(Some(chosen)),
    }
}

/// The first assignment of a knot with values in these sets, by the tables that a search rests on:
/// `None` exactly where there is none.
fn arrange_by<P: Primitive>(
    alloc: Global,
    basis: &Basis<'_, P>,
    knots: &Knots,
    sets: &Sets,
    knot: usize,
    turn: u64,
) -> Result<Option<Part>, NoMemory>
    requires knots { AreKnots (net_of P.behaviour basis.now.circuit.now) knots.now }
    requires knot { knot < knot_count knots.now }
    requires boards { AreBoards (net_of P.behaviour basis.now.circuit.now) basis.now.boards.now }
    requires ends { AreEnds (net_of P.behaviour basis.now.circuit.now) basis.now.ends.now }
    requires items { length basis.now.items.now ≡ length basis.now.circuit.now.joints }
    requires few { (j : ℕ) → length (slice_index_or basis.now.items.now j []) < 2 ^ 32 }
    requires one_each { length sets.now.values ≡ length basis.now.circuit.now.joints }
    requires numbers { let net = net_of P.behaviour basis.now.circuit.now in
        AreInSupply net (in_knot knots.now.numbers knot) basis.now.items.now
        (listed sets.now.values) }
    requires one { let net = net_of P.behaviour basis.now.circuit.now in
        OneAtLoops net (in_knot knots.now.numbers knot) (listed sets.now.values) }
    ensures first { let net = net_of P.behaviour basis.now.circuit.now in
        IfOk result (λ found. MatchOption found (HasNoAssignment net (names_of basis.now.items.now)
        (in_knot knots.now.numbers knot) (listed sets.now.values))
        (IsFirstPart net (names_of basis.now.items.now) (in_knot knots.now.numbers knot) turn
        (listed sets.now.values))) }
{
    basis.circuit.known();
    let _order = basis.circuit.order();
    let sides = knots.sides(knot);
    let places = places_of(alloc, basis.circuit, sides)?;
    let mut state = begin_with(alloc, basis, sides, sets)?;
    match first_by(alloc, basis, sides, &mut state, places.as_slice(), turn)? {
        None => Ok(None),
        Some(chosen) => Ok(Some(part_of(alloc, basis.circuit, sides, chosen.as_slice())?)),
    }
}

/// The first assignment that is wanted, with values in these sets, or `None` exactly where there is
/// none. It ticks once.
pub fn arrange<P: Primitive, L: Ledger>(
    alloc: Global,
    wanted: &Wanted<'_, P>,
    sets: &Sets,
    steps: &mut Steps<L>,
) -> Result<Option<Part>, NoMemory>
    requires wanted { IsWanted (net_of P.behaviour wanted.now.circuit.now) wanted.now }
    requires items { length wanted.now.supply.now.items ≡ length wanted.now.circuit.now.joints }
    requires few { (j : ℕ) → length (slice_index_or wanted.now.supply.now.items j []) < 2 ^ 32 }
    requires one_each { length sets.now.values ≡ length wanted.now.circuit.now.joints }
    requires numbers { let net = net_of P.behaviour wanted.now.circuit.now in
        AreInSupply net (in_wanted wanted.now) wanted.now.supply.now.items
        (listed sets.now.values) }
    requires one { let net = net_of P.behaviour wanted.now.circuit.now in
        OneAtLoops net (in_wanted wanted.now) (listed sets.now.values) }
    ensures first { let net = net_of P.behaviour wanted.now.circuit.now in
        let names = names_of wanted.now.supply.now.items in
        IfOk result (λ found. MatchOption found (HasNoAssignment net names (in_wanted wanted.now)
        (listed sets.now.values)) (IsFirstPart net names (in_wanted wanted.now) wanted.now.turn
        (listed sets.now.values))) }
    ensures ticks { steps.new ≡ steps.old + 1 }
{
    steps.tick();
    let ends = ends_of(alloc, wanted.circuit)?;
    let boards = boards_of(alloc, wanted.circuit, &ends)?;
    let basis = Basis {
        circuit: wanted.circuit,
        boards: &boards,
        ends: &ends,
        items: wanted.supply.lists(),
    };
    arrange_by(alloc, &basis, wanted.knots, sets, wanted.knot, wanted.turn)
}

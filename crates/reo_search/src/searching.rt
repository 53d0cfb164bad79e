//! The first assignment of a knot, over all values that its joints can have.
ghost use Rattle.std.specs.Prelude.{◌≡◌, ◌↔◌, ◌<◌, ◌≤◌, ◌+◌, ◌^◌, ℕ, false, IsTrue, IfOk, OnOk, MatchResult, length};
ghost use Rattle.reo_net_base.specs.Net.{net_of, all_sides};
ghost use Rattle.reo_net_laws.specs.Knots.{AreKnots, in_knot, knot_count};
ghost use Rattle.reo_joint_values.specs.Chosen.{IsChosen};
ghost use Rattle.reo_reach.specs.Supplied.{AreShort, IsReached, IsSupply, is_wide};
ghost use Rattle.reo_joint_values.specs.Many.{IsJointIn};
ghost use Rattle.reo_weights.specs.Weights.{IsWeight, all_values};
ghost use Rattle.reo_rows.specs.Rows.{AreTables};
ghost use Rattle.reo_rows.specs.Sets.{IsReady};
ghost use Rattle.reo_propagate.specs.Basis.{IsSearchOn};
ghost use Rattle.reo_walk.specs.Wanted.{IsWanted, in_wanted};
ghost use Rattle.reo_search.specs.choices.Remaining.{choices_of};
ghost use Rattle.reo_search.specs.choices.Trying.{IsLeastOf, MayRestartOn};
ghost use Rattle.reo_search.specs.choices.KnotSearch.{IsSearched, IsLeftIn, inside_of, names_in};
ghost use Rattle.reo_search.specs.Tables.{AreBegun};
ghost use Rattle.reo_search.specs.First.{IsFirstWithin, IsSearchFault, HasNoThreeColouring};

use crate::choices::{KnotSearch, first_over, narrow_all, weight_of};
use crate::tables::Tables;
use crate::widths::has_wide;
use reo_knots::Knots;
use reo_net_base::Primitive;
use reo_net_circuit::{Circuit, Ends, ends_of};
use reo_propagate::{State, begin, restart};
use reo_reach::Supply;
use reo_rows::Basis;
use reo_side_tables::{Board, boards_of};
use reo_steps::Steps;
use reo_values::{List, NoMemory};
use reo_walk::{Part, Wanted, part_of, places_of};
use reo_weights::Exceeds;
use std::alloc::Global;
use std::sync::ledger::Ledger;

/// The numbers of the first assignment. It ticks at most once for each choice of what is left at
/// the loop joints. `NoMemory` is out of memory.
fn first_numbers<P: Primitive, L: Ledger>(
    searched: &KnotSearch<'_, P>,
    state: &mut State,
    left: &List<List<usize>>,
    steps: &mut Steps<L>,
) -> Result<List<usize>, NoMemory>
    requires search { let net = net_of P.behaviour searched.now.basis.now.circuit.now in
        IsSearchOn net searched.now.basis.now (inside_of searched.now) state.old }
    requires searched { let net = net_of P.behaviour searched.now.basis.now.circuit.now in
        IsSearched net searched.now }
    requires left { let net = net_of P.behaviour searched.now.basis.now.circuit.now in
        IsLeftIn net searched.now state.old.alive left.now }
    ensures first { let net = net_of P.behaviour searched.now.basis.now.circuit.now in
        let names = names_in searched.now in
        IfOk result (IsLeastOf (IsChosen net names (inside_of searched.now) (all_values names))
        net searched.now.turn searched.now.places.now) }
    ensures tables { let net = net_of P.behaviour searched.now.basis.now.circuit.now in
        OnOk result (MayRestartOn net searched.now.basis.now state.new) }
    ensures ticks { steps.new ≤ steps.old + choices_of left.now }
{
    searched.basis.circuit.known();
    match first_over(searched, state, left, steps)? {
        None => unreachable!(),
        Some(chosen) => Ok(chosen),
    }
}

/// The weight of a knot of which no joint is wide: the product over its loop joints of the numbers
/// of values supported there, at most 10^18. `NoMemory` is out of memory.
pub fn weight<P: Primitive>(
    alloc: Global,
    circuit: &Circuit<P>,
    knots: &Knots,
    supply: &Supply,
    knot: usize,
) -> Result<u64, NoMemory>
    requires knots { AreKnots (net_of P.behaviour circuit.now) knots.now }
    requires knot { knot < knot_count knots.now }
    requires supply { IsSupply (net_of P.behaviour circuit.now) supply.now }
    requires short { AreShort supply.now }
    requires narrow { let net = net_of P.behaviour circuit.now in
        (j : ℕ) → IsJointIn net (in_knot knots.now.numbers knot) j → is_wide supply.now j ≡ false }
    ensures { let net = net_of P.behaviour circuit.now in
        IfOk result (IsWeight net (in_knot knots.now.numbers knot)) }
{
    circuit.known();
    let ends = ends_of(alloc, circuit)?;
    let boards = boards_of(alloc, circuit, &ends)?;
    let items = supply.lists();
    let sides = knots.sides(knot);
    let loops = knots.loop_joints(knot);
    let mut state = begin(alloc, circuit, &boards, &ends, items, sides)?;
    let basis = Basis {
        circuit,
        boards: &boards,
        ends: &ends,
        items,
    };
    let left = narrow_all(alloc, &basis, sides, &mut state, loops)?;
    Ok(weight_of(&left))
}

/// What `first` answers, over tables of the circuit and a search that was begun, at any sides. Of
/// the supply only the joints of the knot are looked at. It costs what the knot has.
///
/// # Errors
///
/// Those of `first`.
pub fn first_on<P: Primitive, L: Ledger>(
    alloc: Global,
    wanted: &Wanted<'_, P>,
    tables: &Tables<'_>,
    budget: u64,
    state: &mut State,
    steps: &mut Steps<L>,
) -> Result<Part, Exceeds>
    requires wanted { IsWanted (net_of P.behaviour wanted.now.circuit.now) wanted.now }
    requires reached { let net = net_of P.behaviour wanted.now.circuit.now in
        (j : ℕ) → IsJointIn net (in_wanted wanted.now) j
        → IsReached net wanted.now.supply.now j }
    requires short { AreShort wanted.now.supply.now }
    requires begun { let net = net_of P.behaviour wanted.now.circuit.now in
        AreBegun net wanted.now tables.now state.old }
    requires budget { budget < 10 ^ 18 }
    ensures exact { let net = net_of P.behaviour wanted.now.circuit.now in
        MatchResult result (IsFirstWithin budget net (in_wanted wanted.now) wanted.now.turn)
        (IsSearchFault budget net (in_wanted wanted.now) wanted.now.knot) }
    ensures jammed { let net = net_of P.behaviour wanted.now.circuit.now in
        IfOk result (λ part. IsTrue part.jammed ↔ HasNoThreeColouring net
        (in_wanted wanted.now)) }
    ensures begun { let net = net_of P.behaviour wanted.now.circuit.now in
        OnOk result (AreBegun net wanted.now tables.now state.new) }
    ensures ticks { let net = net_of P.behaviour wanted.now.circuit.now in
        (w : ℕ) → IsWeight net (in_wanted wanted.now) w → steps.new ≤ steps.old + w }
{
    wanted.circuit.known();
    let _order = wanted.circuit.order();
    let sides = wanted.knots.sides(wanted.knot);
    if has_wide(wanted.circuit, tables.boards, wanted.supply, sides) {
        return Err(Exceeds::Wide { knot: wanted.knot });
    }
    let items = wanted.supply.lists();
    let loops = wanted.knots.loop_joints(wanted.knot);
    let basis = Basis {
        circuit: wanted.circuit,
        boards: tables.boards,
        ends: tables.ends,
        items,
    };
    restart(alloc, &basis, sides, state)?;
    let left = narrow_all(alloc, &basis, sides, state, loops)?;
    let weight = weight_of(&left);
    if weight > budget {
        return Err(Exceeds::Spent {
            knot: wanted.knot,
            weight,
        });
    }
    let places = places_of(alloc, wanted.circuit, sides)?;
    let searched = KnotSearch {
        alloc,
        basis: &basis,
        sides,
        places: places.as_slice(),
        loops,
        turn: wanted.turn,
    };
    let chosen = first_numbers(&searched, state, &left, steps)?;
    Ok(part_of(alloc, wanted.circuit, sides, chosen.as_slice())?)
}

/// What `first_on` answers, for a caller that has each part of what is wanted by itself.
///
/// # Errors
///
/// Those of `first`.
pub fn first_with<P: Primitive, L: Ledger>(
    alloc: Global,
    circuit: &Circuit<P>,
    knots: &Knots,
    boards: &List<Board>,
    ends: &Ends,
    supply: &Supply,
    state: &mut State,
    knot: usize,
    turn: u64,
    budget: u64,
    steps: &mut Steps<L>,
) -> Result<Part, Exceeds>
    requires knots { AreKnots (net_of P.behaviour circuit.now) knots.now }
    requires knot { knot < knot_count knots.now }
    requires reached { let net = net_of P.behaviour circuit.now in
        (j : ℕ) → IsJointIn net (in_knot knots.now.numbers knot) j → IsReached net supply.now j }
    requires short { AreShort supply.now }
    requires ready { let net = net_of P.behaviour circuit.now in
        IsReady net boards.now ends.now supply.now.items state.old.alive }
    requires tables { AreTables (net_of P.behaviour circuit.now) supply.now.items state.old.rows }
    requires waits { let net = net_of P.behaviour circuit.now in
        length state.old.queue.waits ≡ length (all_sides net.primitives) }
    requires budget { budget < 10 ^ 18 }
    ensures exact { let net = net_of P.behaviour circuit.now in
        MatchResult result (IsFirstWithin budget net (in_knot knots.now.numbers knot) turn)
        (IsSearchFault budget net (in_knot knots.now.numbers knot) knot) }
    ensures jammed { let net = net_of P.behaviour circuit.now in
        IfOk result (λ part. IsTrue part.jammed ↔ HasNoThreeColouring net
        (in_knot knots.now.numbers knot)) }
    ensures ready { let net = net_of P.behaviour circuit.now in
        OnOk result (IsReady net boards.now ends.now supply.now.items state.new.alive) }
    ensures tables { let net = net_of P.behaviour circuit.now in
        OnOk result (AreTables net supply.now.items state.new.rows) }
    ensures waits { let net = net_of P.behaviour circuit.now in
        OnOk result (length state.new.queue.waits ≡ length (all_sides net.primitives)) }
    ensures ticks { let net = net_of P.behaviour circuit.now in
        (w : ℕ) → IsWeight net (in_knot knots.now.numbers knot) w → steps.new ≤ steps.old + w }
{
    let wanted = Wanted {
        circuit,
        knots,
        supply,
        knot,
        turn,
    };
    let tables = Tables { boards, ends };
    first_on(alloc, &wanted, &tables, budget, state, steps)
}

/// The rows that the first colouring of the circuit, in the round of a number, has on the sides of
/// a knot. The part is jammed exactly where the knot has no colouring without a jam. It makes at
/// most as many ticks as the weight of the knot says.
///
/// # Errors
///
/// The first of these that holds: `Wide`, exactly where more than 256 items can stand at a joint of
/// the knot; `Spent`, exactly where the weight of the knot is above the budget. `NoMemory` is out
/// of memory.
pub fn first<P: Primitive, L: Ledger>(
    alloc: Global,
    wanted: &Wanted<'_, P>,
    budget: u64,
    steps: &mut Steps<L>,
) -> Result<Part, Exceeds>
    requires wanted { IsWanted (net_of P.behaviour wanted.now.circuit.now) wanted.now }
    requires supply { IsSupply (net_of P.behaviour wanted.now.circuit.now) wanted.now.supply.now }
    requires short { AreShort wanted.now.supply.now }
    requires budget { budget < 10 ^ 18 }
    ensures exact { let net = net_of P.behaviour wanted.now.circuit.now in
        MatchResult result (IsFirstWithin budget net (in_wanted wanted.now) wanted.now.turn)
        (IsSearchFault budget net (in_wanted wanted.now) wanted.now.knot) }
    ensures jammed { let net = net_of P.behaviour wanted.now.circuit.now in
        IfOk result (λ part. IsTrue part.jammed ↔ HasNoThreeColouring net
        (in_wanted wanted.now)) }
    ensures ticks { let net = net_of P.behaviour wanted.now.circuit.now in
        (w : ℕ) → IsWeight net (in_wanted wanted.now) w → steps.new ≤ steps.old + w }
{
    wanted.circuit.known();
    let ends = ends_of(alloc, wanted.circuit)?;
    let boards = boards_of(alloc, wanted.circuit, &ends)?;
    let sides = wanted.knots.sides(wanted.knot);
    let items = wanted.supply.lists();
    let mut state = begin(alloc, wanted.circuit, &boards, &ends, items, sides)?;
    let tables = Tables {
        boards: &boards,
        ends: &ends,
    };
    first_on(alloc, wanted, &tables, budget, &mut state, steps)
}

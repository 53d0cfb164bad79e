//! First colourings, made over and over.
ghost use Rattle.std.specs.Prelude.{◌<◌};
ghost use Rattle.reo_net_base.specs.Net.{net_of};
ghost use Rattle.reo_net_laws.specs.Knots.{AreKnots, knot_count};
ghost use Rattle.reo_reach.specs.Supplied.{AreShort, IsSupply};
ghost use Rattle.reo_walk.specs.Wanted.{IsWanted};
ghost use Rattle.reo_search.specs.Tables.{AreBegun};

use reo_knots::Knots;
use reo_net_base::Primitive;
use reo_net_circuit::{Circuit, ends_of};
use reo_propagate::{State, begin};
use reo_reach::reach;
use reo_search::{Exceeds, Part, Tables, Wanted, first_on};
use reo_side_tables::boards_of;
use reo_steps::Steps;
use std::alloc::Global;
use std::sync::ledger::Ledger;

/// The greatest budget.
const BUDGET: u64 = 999_999_999_999_999_999;

/// The first colouring of a part, made so many times over tables of the circuit, and once at least.
fn colour_with<P: Primitive, L: Ledger>(
    alloc: Global,
    wanted: &Wanted<'_, P>,
    tables: &Tables<'_>,
    state: &mut State,
    times: u32,
    steps: &mut Steps<L>,
) -> Result<Part, Exceeds>
    requires wanted { IsWanted (net_of P.behaviour wanted.now.circuit.now) wanted.now }
    requires supply { IsSupply (net_of P.behaviour wanted.now.circuit.now) wanted.now.supply.now }
    requires short { AreShort wanted.now.supply.now }
    requires begun { let net = net_of P.behaviour wanted.now.circuit.now in
        AreBegun net wanted.now tables.now state.old }
{
    wanted.circuit.known();
    let mut part = first_on(alloc, wanted, tables, BUDGET, state, steps)?;
    for _ in 1..times {
        part = first_on(alloc, wanted, tables, BUDGET, state, steps)?;
    }
    Ok(part)
}

/// The first colouring of a part in the first round, made so many times, and once at least, after
/// tables of the circuit were made once.
pub fn colour<P: Primitive, L: Ledger>(
    alloc: Global,
    circuit: &Circuit<P>,
    knots: &Knots,
    knot: usize,
    times: u32,
    steps: &mut Steps<L>,
) -> Result<Part, Exceeds>
    requires knots { AreKnots (net_of P.behaviour circuit.now) knots.now }
    requires knot { knot < knot_count knots.now }
{
    circuit.known();
    let ends = ends_of(alloc, circuit)?;
    let boards = boards_of(alloc, circuit, &ends)?;
    let supply = reach(alloc, circuit)?;
    let items = supply.lists();
    let mut state = begin(alloc, circuit, &boards, &ends, items, knots.sides(knot))?;
    let wanted = Wanted {
        circuit,
        knots,
        supply: &supply,
        knot,
        turn: 1,
    };
    let tables = Tables {
        boards: &boards,
        ends: &ends,
    };
    colour_with(alloc, &wanted, &tables, &mut state, times, steps)
}

//! Parts that are arranged with values in sets.
ghost use Rattle.std.specs.Prelude.{◌≡◌, ◌<◌, length};
ghost use Rattle.reo_net_base.specs.Net.{net_of};
ghost use Rattle.reo_net_base.specs.Colouring.{IsColouring};
ghost use Rattle.reo_kinds.specs.Kinds.{behaviour_of};
ghost use Rattle.reo_reach.specs.Supplied.{AreShort, IsSupply};
ghost use Rattle.reo_walk.specs.Wanted.{IsWanted};

use crate::bounds::{are_within, loops_are_single};
use crate::sets::sets_of;
use crate::tally::{SearchTally, count};
use reo_kinds::Kind;
use reo_knots::find_knots;
use reo_net_base::Colouring;
use reo_net_circuit::Circuit;
use reo_propagate::Sets;
use reo_reach::reach;
use reo_search::{Part, Wanted, arrange};
use reo_steps::Steps;
use reo_values::NoMemory;
use std::alloc::Global;
use std::sync::ledger::Ledger;

/// Whether a part has these sides, and the rows of a colouring there.
fn has_rows(part: &Part, sides: &[usize], rows: &[u32]) -> bool {
    if part.sides.as_slice() != sides || part.rows.len() != sides.len() {
        return false;
    }
    for index in 0..sides.len() {
        let side = sides[index];
        if rows.len() <= side || *part.rows.at(index) != rows[side] {
            return false;
        }
    }
    true
}

/// Whether a colouring has a jam row, the last of a table, at one of these sides.
fn has_jam_row(circuit: &Circuit<Kind>, sides: &[usize], plain: &Colouring) -> bool
    requires { IsColouring (net_of behaviour_of circuit.now) plain.now.rows plain.now.items }
{
    let rows = plain.rows.as_slice();
    for side in sides {
        if *side < circuit.sides() && circuit.row(rows, *side) + 1 == circuit.rows(*side) {
            return true;
        }
    }
    false
}

/// Whether there is a part with these sides and the rows of a colouring, and it jams exactly where
/// one of these is a jam row.
fn is_of(circuit: &Circuit<Kind>, part: &Option<Part>, sides: &[usize], plain: &Colouring) -> bool
    requires { IsColouring (net_of behaviour_of circuit.now) plain.now.rows plain.now.items }
{
    match part {
        Some(part) => {
            has_rows(part, sides, plain.rows.as_slice())
                && part.jammed == has_jam_row(circuit, sides, plain)
        }
        None => false,
    }
}

/// Whether the first assignment of a part with values in some sets has the rows of a colouring.
fn agrees<L: Ledger>(
    alloc: Global,
    wanted: &Wanted<'_, Kind>,
    sets: &Sets,
    plain: &Colouring,
    steps: &mut Steps<L>,
) -> Result<bool, NoMemory>
    requires wanted { IsWanted (net_of behaviour_of wanted.now.circuit.now) wanted.now }
    requires supply { IsSupply (net_of behaviour_of wanted.now.circuit.now) wanted.now.supply.now }
    requires short { AreShort wanted.now.supply.now }
    requires plain { IsColouring (net_of behaviour_of wanted.now.circuit.now) plain.now.rows
        plain.now.items }
{
    if !are_within(wanted.supply.lists(), sets)
        || !loops_are_single(wanted.knots, sets, wanted.knot)
    {
        return Ok(false);
    }
    let part = arrange(alloc, wanted, sets, steps)?;
    Ok(is_of(
        wanted.circuit,
        &part,
        wanted.knots.sides(wanted.knot),
        plain,
    ))
}

/// Arranges all parts of a circuit, with the values of its first colouring at the loop joints:
/// whether all have its rows.
pub fn all_arranged<L: Ledger>(
    alloc: Global,
    circuit: &Circuit<Kind>,
    plain: &Colouring,
    turn: u64,
    steps: &mut Steps<L>,
    tally: &mut SearchTally,
) -> Result<bool, NoMemory>
    requires { IsColouring (net_of behaviour_of circuit.now) plain.now.rows plain.now.items }
{
    let knots = find_knots(alloc, circuit)?;
    let supply = reach(alloc, circuit)?;
    let sets = sets_of(alloc, circuit, &knots, &supply, plain)?;
    for knot in 0..knots.count() {
        let wanted = Wanted {
            circuit,
            knots: &knots,
            supply: &supply,
            knot,
            turn,
        };
        if !agrees(alloc, &wanted, &sets, plain, steps)? {
            return Ok(false);
        }
        count(&mut tally.arranged, true);
    }
    Ok(true)
}

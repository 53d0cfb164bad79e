//! Parts that are counted.
ghost use Rattle.reo_net_base.specs.Net.{net_of};
ghost use Rattle.reo_kinds.specs.Kinds.{behaviour_of};
ghost use Rattle.reo_reach.specs.Supplied.{AreShort, IsSupply};
ghost use Rattle.reo_walk.specs.Wanted.{IsWanted};

use crate::tally::{SearchTally, count};
use reo_kinds::Kind;
use reo_knots::find_knots;
use reo_net_circuit::Circuit;
use reo_reach::reach;
use reo_search::{Exceeds, Wanted, first};
use reo_steps::Steps;
use reo_values::NoMemory;
use std::alloc::Global;
use std::sync::ledger::Ledger;

/// The weight of a part, which is told where a budget of 1 is spent.
fn weight_of<L: Ledger>(alloc: Global, wanted: &Wanted<'_, Kind>, steps: &mut Steps<L>) -> u64
    requires wanted { IsWanted (net_of behaviour_of wanted.now.circuit.now) wanted.now }
    requires supply { IsSupply (net_of behaviour_of wanted.now.circuit.now) wanted.now.supply.now }
    requires short { AreShort wanted.now.supply.now }
{
    match first(alloc, wanted, 1, steps) {
        Err(Exceeds::Spent { weight, .. }) => weight,
        _ => 1,
    }
}

/// Counts the parts of a circuit in its present state.
pub fn count_parts<L: Ledger>(
    alloc: Global,
    circuit: &Circuit<Kind>,
    steps: &mut Steps<L>,
    tally: &mut SearchTally,
) -> Result<(), NoMemory> {
    let knots = find_knots(alloc, circuit)?;
    let supply = reach(alloc, circuit)?;
    for knot in 0..knots.count() {
        count(&mut tally.parts, true);
        count(&mut tally.loops, !knots.loop_joints(knot).is_empty());
        let wanted = Wanted {
            circuit,
            knots: &knots,
            supply: &supply,
            knot,
            turn: 1,
        };
        let weight = weight_of(alloc, &wanted, steps);
        count(&mut tally.heavy, 1 < weight);
        tally.greatest = tally.greatest.max(weight);
    }
    Ok(())
}

//! The first knot with sets of values that are given.
ghost use Rattle.std.specs.Prelude.{◌≡◌, ◌<◌, ◌+◌, IsTrue};
ghost use Rattle.reo_net_base.specs.Net.{net_of};
ghost use Rattle.reo_net_laws.specs.Knots.{AreKnots, knot_count};
ghost use Rattle.reo_walk.specs.Wanted.{IsWanted};

use crate::bounds::{are_single, are_within};
use crate::looks::is_part;
use crate::sets::{Table, have, sets_of};
use reo_knots::Knots;
use reo_net_base::Primitive;
use reo_net_circuit::Circuit;
use reo_propagate::{Sets, narrow};
use reo_reach::Supply;
use reo_search::{Part, Wanted, arrange};
use reo_steps::Steps;
use std::alloc::Global;
use std::sync::ledger::Ledger;

/// The rows of a first assignment, and whether it jams: `None` where there is none.
pub type Want<'a> = Option<(&'a [u32], bool)>;

fn is_found(part: &Option<Part>, want: Want<'_>) -> bool {
    match part {
        None => want.is_none(),
        Some(part) => match want {
            None => false,
            Some((rows, jammed)) => is_part(part, rows, jammed),
        },
    }
}

/// Whether the first assignment with these values is as it was found by hand. It ticks once.
pub fn is_arranged<P: Primitive, L: Ledger>(
    alloc: Global,
    wanted: &Wanted<'_, P>,
    values: Table,
    want: Want<'_>,
    steps: &mut Steps<L>,
) -> bool
    requires { IsWanted (net_of P.behaviour wanted.now.circuit.now) wanted.now }
    ensures { IsTrue result → steps.new ≡ steps.old + 1 }
{
    let Ok(sets) = sets_of(alloc, values) else {
        return false;
    };
    let items = wanted.supply.lists();
    let single = are_single(&sets, wanted.knots.loop_joints(wanted.knot));
    single
        && items.len() == wanted.circuit.joint_count()
        && are_within(items, &sets)
        && match arrange(alloc, wanted, &sets, steps) {
            Ok(part) => is_found(&part, want),
            Err(_) => false,
        }
}

fn is_left(full: bool, sets: &Sets, want: Option<Table>) -> bool {
    match want {
        None => !full,
        Some(left) => full && have(sets, left),
    }
}

/// Whether of these values those are left that were found by hand: `None` where at some joint
/// nothing is left.
pub fn is_narrowed<P: Primitive>(
    alloc: Global,
    circuit: &Circuit<P>,
    knots: &Knots,
    supply: &Supply,
    values: Table,
    want: Option<Table>,
) -> bool
    requires knots { AreKnots (net_of P.behaviour circuit.now) knots.now }
    requires some { 0 < knot_count knots.now }
{
    let Ok(mut sets) = sets_of(alloc, values) else {
        return false;
    };
    let items = supply.lists();
    let sides = knots.sides(0);
    items.len() == circuit.joint_count()
        && are_within(items, &sets)
        && match narrow(alloc, circuit, supply, sides, &mut sets) {
            Ok(full) => is_left(full, &sets, want),
            Err(_) => false,
        }
}

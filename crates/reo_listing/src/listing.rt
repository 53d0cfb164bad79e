//! The boundary tables of a circuit.
ghost use Rattle.std.specs.Prelude.{◌<◌, ◌^◌};
ghost use Rattle.reo_open.specs.Opened.{HasNoFilter};
ghost use Rattle.reo_listing.specs.base.Listed.{Lists};

use crate::base::{BoundaryTable, ListFault, open_parts_are_narrow};
use crate::gates::open_ports_are_gates;
use crate::parts::list_parts;
use crate::ports::first_filter;
use reo_flatten::Flat;
use reo_kinds::Kind;
use reo_knots::find_knots;
use reo_net_circuit::Circuit;
use reo_open::open_circuit;
use reo_steps::Steps;
use reo_values::List;
use reo_weights::numbers_are_one;
use std::alloc::Global;
use std::sync::ledger::Ledger;

/// The boundary tables of a circuit without filters.
///
/// # Errors
///
/// Those of `list`, beside `Filter`.
fn list_open<L: Ledger>(
    alloc: Global,
    circuit: &Circuit<Kind>,
    budget: u64,
    steps: &mut Steps<L>,
) -> Result<List<BoundaryTable>, ListFault>
    requires budget { budget < 10 ^ 18 }
    requires none { HasNoFilter circuit.now.primitives }
    ensures { Lists circuit.now budget result }
{
    circuit.known();
    circuit.known_ports();
    open_parts_are_narrow();
    open_ports_are_gates();
    numbers_are_one();
    let open = open_circuit(alloc, circuit)?;
    let knots = find_knots(alloc, &open)?;
    list_parts(alloc, open, &knots, budget, steps)
}

/// The boundary tables of a circuit: one for each part with ports, in order.
///
/// # Errors
///
/// `Filter`, where a filter is in the circuit, the first. Else the first part with ports that has
/// one of these is answered: `Spent`, where its weight in the open circuit is above the budget, and
/// else `Rows`, where its table has more than 4,096 lists. `NoMemory` is out of memory.
pub fn list<L: Ledger>(
    alloc: Global,
    flat: &Flat,
    budget: u64,
    steps: &mut Steps<L>,
) -> Result<List<BoundaryTable>, ListFault>
    requires { budget < 10 ^ 18 }
    ensures { Lists flat.now.circuit budget result }
{
    match first_filter(flat.circuit.primitives()) {
        Some(primitive) => Err(ListFault::Filter { primitive }),
        None => list_open(alloc, &flat.circuit, budget, steps),
    }
}

//! Whether a part can do without a jam row.
ghost use Rattle.std.specs.Prelude.{◌≡◌, ◌<◌, ◌≤◌, ◌^◌, IfOk, OnOk};
ghost use Rattle.reo_net_base.specs.Net.{net_of};
ghost use Rattle.reo_net_laws.specs.Knots.{AreKnots, in_knot, knot_count};
ghost use Rattle.reo_weights.specs.Over.{IsWithin};
ghost use Rattle.reo_open.specs.Opens.{open_behaviour};
ghost use Rattle.reo_listing.specs.rows.Lookups.{AreLookupsBeside};
ghost use Rattle.reo_listing.specs.rows.Meeting.{IsMeeting};

use crate::rows::lookups::Lookups;
use crate::rows::searching::search;
use reo_knots::Knots;
use reo_net_circuit::Circuit;
use reo_net_laws::knot_jams_exactly;
use reo_open::Open;
use reo_search::Exceeds;
use reo_steps::Steps;
use reo_values::NoMemory;
use reo_weights::weight_is_one;
use std::alloc::Global;
use std::sync::ledger::Ledger;

/// Out of memory, which is the one fault of a part within the budget.
fn only_memory(fault: Exceeds) -> NoMemory
    requires { fault ≡ Exceeds.NoMemory }
{
    let _ = fault;
    NoMemory
}

/// Whether a part within the budget has an assignment without a jam row. `NoMemory` is out of
/// memory.
pub(crate) fn meets<L: Ledger>(
    alloc: Global,
    circuit: &Circuit<Open>,
    knots: &Knots,
    part: usize,
    budget: u64,
    lookups: &mut Lookups,
    steps: &mut Steps<L>,
) -> Result<bool, NoMemory>
    requires knots { AreKnots (net_of open_behaviour circuit.now) knots.now }
    requires part { part < knot_count knots.now }
    requires budget { budget < 10 ^ 18 }
    requires within { IsWithin budget (net_of open_behaviour circuit.now)
        (in_knot knots.now.numbers part) }
    requires lookups { AreLookupsBeside (net_of open_behaviour circuit.now) knots.now part
        lookups.old }
    ensures meeting { IfOk result (IsMeeting (net_of open_behaviour circuit.now)
        (in_knot knots.now.numbers part)) }
    ensures lookups { OnOk result (AreLookupsBeside (net_of open_behaviour circuit.now) knots.now
        part lookups.new) }
{
    circuit.known();
    knot_jams_exactly();
    weight_is_one();
    match search(alloc, circuit, knots, part, budget, lookups, steps) {
        Ok(found) => Ok(!found.jammed),
        Err(fault) => Err(only_memory(fault)),
    }
}

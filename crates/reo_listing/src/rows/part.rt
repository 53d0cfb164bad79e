//! The table of one part.
ghost use Rattle.std.specs.Prelude.{◌≡◌, ◌<◌, ◌≤◌, ◌^◌, [], IfOk, OnOk, MatchResult, length};
ghost use Rattle.reo_net_base.specs.Net.{net_of};
ghost use Rattle.reo_net_laws.specs.Knots.{in_knot, AreKnots, knot_count};
ghost use Rattle.reo_open.specs.Opens.{open_behaviour};
ghost use Rattle.reo_weights.specs.Widths.{IsWide};
ghost use Rattle.reo_listing.specs.laws.Gated.{AreHeld};
ghost use Rattle.reo_listing.specs.laws.Searched.{IsSearched, HasThreeColouring};
ghost use Rattle.reo_listing.specs.rows.Lookups.{AreLookupsBeside};
ghost use Rattle.reo_listing.specs.rows.Meeting.{IsMeetingWithin};
ghost use Rattle.reo_listing.specs.rows.PartTables.{IsPartTable, IsPartFault, IsBeginFault};

use crate::base::ListFault;
use crate::rows::lookups::Lookups;
use crate::rows::searching::search;
use crate::rows::walking::extend;
use reo_knots::Knots;
use reo_net_base::Mark;
use reo_net_circuit::Circuit;
use reo_net_laws::knot_jams_exactly;
use reo_open::Open;
use reo_search::Exceeds;
use reo_steps::Steps;
use reo_values::List;
use std::alloc::Global;
use std::sync::ledger::Ledger;

/// Whether a part that is not wide has an assignment without a jam row.
///
/// # Errors
///
/// `Spent`, where its weight is above the budget. `NoMemory` is out of memory.
fn begin<L: Ledger>(
    alloc: Global,
    circuit: &Circuit<Open>,
    knots: &Knots,
    part: usize,
    budget: u64,
    lookups: &mut Lookups,
    steps: &mut Steps<L>,
) -> Result<bool, ListFault>
    requires knots { AreKnots (net_of open_behaviour circuit.now) knots.now }
    requires part { part < knot_count knots.now }
    requires budget { budget < 10 ^ 18 }
    requires narrow { IsWide (net_of open_behaviour circuit.now)
        (in_knot knots.now.numbers part) → ⊥ }
    requires lookups { AreLookupsBeside (net_of open_behaviour circuit.now) knots.now part
        lookups.old }
    ensures exact { let net = net_of open_behaviour circuit.now in
        let inside = in_knot knots.now.numbers part in
        MatchResult result (IsMeetingWithin budget net inside)
        (IsBeginFault budget net inside part) }
    ensures lookups { OnOk result (AreLookupsBeside (net_of open_behaviour circuit.now) knots.now
        part lookups.new) }
{
    circuit.known();
    knot_jams_exactly();
    match search(alloc, circuit, knots, part, budget, lookups, steps) {
        Ok(found) => Ok(!found.jammed),
        Err(Exceeds::Spent { knot, weight }) => Err(ListFault::Spent { part: knot, weight }),
        Err(Exceeds::Wide { .. }) => unreachable!(),
        Err(Exceeds::NoMemory) => Err(ListFault::NoMemory),
    }
}

/// The lists that the ports of a part have, where some may be.
fn filled<L: Ledger>(
    alloc: Global,
    circuit: &mut Circuit<Open>,
    knots: &Knots,
    part: usize,
    ports: &[usize],
    budget: u64,
    lookups: &mut Lookups,
    steps: &mut Steps<L>,
) -> Result<List<List<Mark>>, ListFault>
    requires budget { budget < 10 ^ 18 }
    requires searched { IsSearched circuit.old knots.now part budget ports.now [] }
    requires some { HasThreeColouring
        (net_of open_behaviour circuit.old) (in_knot knots.now.numbers part) }
    requires lookups { AreLookupsBeside (net_of open_behaviour circuit.old) knots.now part
        lookups.old }
    ensures circuit { OnOk result (circuit.new ≡ circuit.old) }
    ensures lookups { OnOk result (AreLookupsBeside (net_of open_behaviour circuit.old) knots.now
        part lookups.new) }
    ensures table { let net = net_of open_behaviour circuit.old in
        let inside = in_knot knots.now.numbers part in
        MatchResult result (IsPartTable budget net inside ports.now)
        (IsPartFault budget net inside ports.now part) }
{
    let mut front = List::new(alloc);
    let mut rows = List::new(alloc);
    match extend(
        alloc, circuit, knots, part, ports, budget, lookups, &mut front, &mut rows, steps,
    ) {
        Err(fault) => Err(fault),
        Ok(()) => Ok(rows),
    }
}

/// The lists that the ports of a part have, in order, where the part is not wide.
///
/// # Errors
///
/// `Spent`, where the weight of the part is above the budget; else `Rows`, where there are more
/// than 4,096 lists. `NoMemory` is out of memory.
pub fn rows_of<L: Ledger>(
    alloc: Global,
    circuit: &mut Circuit<Open>,
    knots: &Knots,
    part: usize,
    ports: &[usize],
    budget: u64,
    lookups: &mut Lookups,
    steps: &mut Steps<L>,
) -> Result<List<List<Mark>>, ListFault>
    requires knots { AreKnots (net_of open_behaviour circuit.old) knots.now }
    requires part { part < knot_count knots.now }
    requires budget { budget < 10 ^ 18 }
    requires narrow { IsWide (net_of open_behaviour circuit.old)
        (in_knot knots.now.numbers part) → ⊥ }
    requires held { AreHeld circuit.old (in_knot knots.now.numbers part) ports.now [] }
    requires lookups { AreLookupsBeside (net_of open_behaviour circuit.old) knots.now part
        lookups.old }
    ensures circuit { OnOk result (circuit.new ≡ circuit.old) }
    ensures lookups { OnOk result (AreLookupsBeside (net_of open_behaviour circuit.old) knots.now
        part lookups.new) }
    ensures table { let net = net_of open_behaviour circuit.old in
        let inside = in_knot knots.now.numbers part in
        MatchResult result (IsPartTable budget net inside ports.now)
        (IsPartFault budget net inside ports.now part) }
{
    circuit.known();
    let _order = circuit.order();
    match begin(alloc, circuit, knots, part, budget, lookups, steps) {
        Err(fault) => Err(fault),
        Ok(false) => Ok(List::new(alloc)),
        Ok(true) => filled(alloc, circuit, knots, part, ports, budget, lookups, steps),
    }
}

//! The search of a part, by tables that are made anew for it.
ghost use Rattle.std.specs.Prelude.{◌≡◌, ◌<◌, ◌↔◌, ◌^◌, IsTrue, IfOk, OnOk, MatchResult};
ghost use Rattle.reo_net_base.specs.Net.{net_of};
ghost use Rattle.reo_net_circuit.specs.found_ends.Ends.{AreEnds};
ghost use Rattle.reo_net_laws.specs.Knots.{AreKnots, in_knot, knot_count};
ghost use Rattle.reo_open.specs.Opens.{open_behaviour};
ghost use Rattle.reo_search.specs.First.{IsFirstWithin, IsSearchFault, HasNoThreeColouring};
ghost use Rattle.reo_search_tables.specs.SearchTables.{AreReady};
ghost use Rattle.reo_listing.specs.rows.Lookups.{AreLookupsBeside};

use crate::rows::lookups::Lookups;
use reo_knots::Knots;
use reo_net_circuit::{Circuit, Ends};
use reo_open::Open;
use reo_search::{Exceeds, Part, first_with};
use reo_search_tables::{SearchTables, ready_tables_are_right, right_parts_are_ready};
use reo_steps::Steps;
use std::alloc::Global;
use std::sync::ledger::Ledger;

/// The rows of the first assignment of a part, by tables of the circuit.
fn search_by<L: Ledger>(
    alloc: Global,
    circuit: &Circuit<Open>,
    knots: &Knots,
    part: usize,
    budget: u64,
    ends: &Ends,
    tables: &mut SearchTables,
    steps: &mut Steps<L>,
) -> Result<Part, Exceeds>
    requires knots { AreKnots (net_of open_behaviour circuit.now) knots.now }
    requires part { part < knot_count knots.now }
    requires budget { budget < 10 ^ 18 }
    requires tables { AreReady (net_of open_behaviour circuit.now) ends.now tables.old }
    ensures exact { let net = net_of open_behaviour circuit.now in
        let inside = in_knot knots.now.numbers part in
        MatchResult result (IsFirstWithin budget net inside 1)
        (IsSearchFault budget net inside part) }
    ensures jammed { let net = net_of open_behaviour circuit.now in
        IfOk result (λ found. IsTrue found.jammed ↔ HasNoThreeColouring net
        (in_knot knots.now.numbers part)) }
    ensures tables { OnOk result (AreReady (net_of open_behaviour circuit.now) ends.now
        tables.new) }
{
    first_with(
        alloc,
        circuit,
        knots,
        &tables.boards,
        ends,
        &tables.supply,
        &mut tables.state,
        part,
        1,
        budget,
        steps,
    )
}

/// The rows of the first assignment of a part. Its tables are made anew.
///
/// # Errors
///
/// `Wide` and `Spent` come exactly where the part is over. `NoMemory` is out of memory.
pub(crate) fn search<L: Ledger>(
    alloc: Global,
    circuit: &Circuit<Open>,
    knots: &Knots,
    part: usize,
    budget: u64,
    lookups: &mut Lookups,
    steps: &mut Steps<L>,
) -> Result<Part, Exceeds>
    requires knots { AreKnots (net_of open_behaviour circuit.now) knots.now }
    requires part { part < knot_count knots.now }
    requires budget { budget < 10 ^ 18 }
    requires lookups { AreLookupsBeside (net_of open_behaviour circuit.now) knots.now part
        lookups.old }
    ensures exact { let net = net_of open_behaviour circuit.now in
        let inside = in_knot knots.now.numbers part in
        MatchResult result (IsFirstWithin budget net inside 1)
        (IsSearchFault budget net inside part) }
    ensures jammed { let net = net_of open_behaviour circuit.now in
        IfOk result (λ found. IsTrue found.jammed ↔ HasNoThreeColouring net
        (in_knot knots.now.numbers part)) }
    ensures lookups { OnOk result (AreLookupsBeside (net_of open_behaviour circuit.now) knots.now
        part lookups.new) }
{
    circuit.known();
    ready_tables_are_right();
    right_parts_are_ready();
    lookups.renew(alloc, circuit, knots, part)?;
    search_by(
        alloc,
        circuit,
        knots,
        part,
        budget,
        &lookups.ends,
        &mut lookups.tables,
        steps,
    )
}

//! The tables of the parts of an open circuit.
ghost use Rattle.std.specs.Prelude.{◌≡◌, ◌+◌, ◌<◌, ◌^◌, OnOk, MatchResult};
ghost use Rattle.reo_net_base.specs.Net.{net_of};
ghost use Rattle.reo_net_laws.specs.Knots.{in_knot, knot_count};
ghost use Rattle.reo_open.specs.Opens.{open_behaviour};
ghost use Rattle.reo_listing.specs.base.Tables.{ports_in};
ghost use Rattle.reo_listing.specs.base.Listed.{AreTables, ListsParts};
ghost use Rattle.reo_listing.specs.rows.Lookups.{AreLookups, AreLookupsBeside};
ghost use Rattle.reo_listing.specs.rows.PartTables.{IsPartFault};
ghost use Rattle.reo_listing.specs.Listable.{IsListable};
ghost use Rattle.reo_listing.specs.Parts.{IsPartsTable, StopsAt};

use crate::base::{BoundaryTable, ListFault};
use crate::ports::ports_of;
use crate::rows::{Lookups, rows_of};
use reo_knots::Knots;
use reo_net_circuit::Circuit;
use reo_open::Open;
use reo_steps::Steps;
use reo_values::List;
use std::alloc::Global;
use std::sync::ledger::Ledger;

/// The table of a part, whose ports these are.
///
/// # Errors
///
/// `Spent`, where the weight of the part is above the budget; else `Rows`, where its table has
/// more than 4,096 lists. `NoMemory` is out of memory.
fn table_of<L: Ledger>(
    alloc: Global,
    circuit: &mut Circuit<Open>,
    knots: &Knots,
    part: usize,
    ports: List<usize>,
    budget: u64,
    lookups: &mut Lookups,
    steps: &mut Steps<L>,
) -> Result<BoundaryTable, ListFault>
    requires budget { budget < 10 ^ 18 }
    requires listable { IsListable circuit.old knots.now }
    requires part { part < knot_count knots.now }
    requires ports { ports ≡ ports_in (net_of open_behaviour circuit.old) circuit.old.ports
        (in_knot knots.now.numbers part) }
    requires lookups { AreLookupsBeside (net_of open_behaviour circuit.old) knots.now part
        lookups.old }
    ensures circuit { OnOk result (circuit.new ≡ circuit.old) }
    ensures lookups { OnOk result (AreLookups (net_of open_behaviour circuit.old) knots.now
        lookups.new) }
    ensures table { let net = net_of open_behaviour circuit.old in
        let numbers = knots.now.numbers in
        MatchResult result (IsPartsTable net circuit.old.ports budget numbers part)
        (IsPartFault budget net (in_knot numbers part) ports part) }
{
    match rows_of(
        alloc,
        circuit,
        knots,
        part,
        ports.as_slice(),
        budget,
        lookups,
        steps,
    ) {
        Err(fault) => Err(fault),
        Ok(rows) => {
            lookups.renew(alloc, circuit, knots, part)?;
            Ok(BoundaryTable { part, ports, rows })
        }
    }
}

/// Adds the table of a part, if it has ports.
///
/// # Errors
///
/// Those of `table_of`.
fn add_part<L: Ledger>(
    alloc: Global,
    circuit: &mut Circuit<Open>,
    knots: &Knots,
    part: usize,
    budget: u64,
    lookups: &mut Lookups,
    tables: &mut List<BoundaryTable>,
    steps: &mut Steps<L>,
) -> Result<(), ListFault>
    requires budget { budget < 10 ^ 18 }
    requires listable { IsListable circuit.old knots.now }
    requires part { part < knot_count knots.now }
    requires before { let net = net_of open_behaviour circuit.old in
        AreTables net circuit.old.ports budget knots.now.numbers part tables.old }
    requires lookups { AreLookups (net_of open_behaviour circuit.old) knots.now lookups.old }
    ensures circuit { OnOk result (circuit.new ≡ circuit.old) }
    ensures lookups { OnOk result (AreLookups (net_of open_behaviour circuit.old) knots.now
        lookups.new) }
    ensures tables { let net = net_of open_behaviour circuit.old in
        let numbers = knots.now.numbers in
        MatchResult result
        (λ _. AreTables net circuit.old.ports budget numbers (part + 1) tables.new)
        (StopsAt net circuit.old.ports budget numbers part) }
{
    let ports = ports_of(alloc, circuit, knots, part)?;
    if ports.is_empty() {
        return Ok(());
    }
    match table_of(alloc, circuit, knots, part, ports, budget, lookups, steps) {
        Err(fault) => Err(fault),
        Ok(table) => {
            tables.push(table)?;
            Ok(())
        }
    }
}

/// The tables of the parts with ports, in order.
///
/// # Errors
///
/// Those of `table_of`, for the first part that has one.
pub(crate) fn list_parts<L: Ledger>(
    alloc: Global,
    circuit: Circuit<Open>,
    knots: &Knots,
    budget: u64,
    steps: &mut Steps<L>,
) -> Result<List<BoundaryTable>, ListFault>
    requires budget { budget < 10 ^ 18 }
    requires listable { IsListable circuit knots.now }
    ensures { let net = net_of open_behaviour circuit in
        ListsParts net circuit.ports budget knots.now.numbers (knot_count knots.now) result }
{
    let mut circuit = circuit;
    let mut lookups = Lookups::new(alloc, &circuit, knots)?;
    let mut tables = List::new(alloc);
    for part in 0..knots.count() {
        if let Err(fault) = add_part(
            alloc,
            &mut circuit,
            knots,
            part,
            budget,
            &mut lookups,
            &mut tables,
            steps,
        ) {
            return Err(fault);
        }
    }
    Ok(tables)
}

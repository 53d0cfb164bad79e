//! The tables of a whole circuit.
ghost use Rattle.std.specs.Prelude.{◌≡◌, ◌<◌, IfOk, length};
ghost use Rattle.reo_net_base.specs.Net.{net_of};
ghost use Rattle.reo_net_circuit.specs.found_ends.Ends.{AreEnds};
ghost use Rattle.reo_search_tables.specs.SearchTables.{AreReady};

use reo_net_base::Primitive;
use reo_net_circuit::{Circuit, Ends};
use reo_propagate::begin;
use reo_reach::reach;
use reo_search_tables::SearchTables;
use reo_side_tables::boards_of;
use reo_values::NoMemory;
use std::alloc::Global;

/// The tables of a circuit in its present state. `NoMemory` is out of memory.
pub fn tables_of<P: Primitive>(
    alloc: Global,
    circuit: &Circuit<P>,
    ends: &Ends,
) -> Result<SearchTables, NoMemory>
    requires ends { AreEnds (net_of P.behaviour circuit.now) ends.now }
    ensures { IfOk result (AreReady (net_of P.behaviour circuit.now) ends.now) }
{
    let supply = reach(alloc, circuit)?;
    let boards = boards_of(alloc, circuit, ends)?;
    let state = begin(alloc, circuit, &boards, ends, supply.lists(), &[])?;
    Ok(SearchTables {
        supply,
        boards,
        state,
    })
}

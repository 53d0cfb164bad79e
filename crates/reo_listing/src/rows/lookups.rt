//! What the parts of an open circuit are searched by.
ghost use Rattle.std.specs.Prelude.{◌≡◌, ◌<◌, IfOk, OnOk};
ghost use Rattle.reo_net_base.specs.Net.{net_of};
ghost use Rattle.reo_net_laws.specs.Knots.{AreKnots, knot_count};
ghost use Rattle.reo_open.specs.Opens.{open_behaviour};
ghost use Rattle.reo_listing.specs.rows.Lookups.{AreLookups, AreLookupsBeside};

use reo_knots::Knots;
use reo_net_circuit::{Circuit, Ends, ends_of};
use reo_open::Open;
use reo_planning::tables_of;
use reo_search_tables::{SearchTables, orders_of, ready_tables_are_right, renew_part};
use reo_values::{List, NoMemory};
use std::alloc::Global;

/// What the parts of an open circuit are searched by, found once for all of them: the joint at each
/// end, the joints of each part, in order, and the tables of the search.
#[derive(Drop)]
pub struct Lookups {
    pub(crate) ends: Ends,
    pub(crate) orders: List<List<usize>>,
    pub(crate) tables: SearchTables,
}

impl Lookups {
    /// For an open circuit. `NoMemory` is out of memory.
    pub fn new(alloc: Global, circuit: &Circuit<Open>, knots: &Knots) -> Result<Lookups, NoMemory>
        requires { AreKnots (net_of open_behaviour circuit.now) knots.now }
        ensures { IfOk result (AreLookups (net_of open_behaviour circuit.now) knots.now) }
    {
        ready_tables_are_right();
        let ends = ends_of(alloc, circuit)?;
        let orders = orders_of(alloc, circuit, knots)?;
        let tables = tables_of(alloc, circuit, &ends)?;
        Ok(Lookups {
            ends,
            orders,
            tables,
        })
    }

    /// Makes the tables of a part anew, for the rows that its gates have now. It costs what the
    /// part has. `NoMemory` is out of memory.
    pub(crate) fn renew(
        &mut self,
        alloc: Global,
        circuit: &Circuit<Open>,
        knots: &Knots,
        part: usize,
    ) -> Result<(), NoMemory>
        requires knots { AreKnots (net_of open_behaviour circuit.now) knots.now }
        requires part { part < knot_count knots.now }
        requires lookups { AreLookupsBeside (net_of open_behaviour circuit.now) knots.now part
            self.old }
        ensures { OnOk result (AreLookups (net_of open_behaviour circuit.now) knots.now self.new) }
    {
        circuit.known();
        renew_part(
            alloc,
            circuit,
            &self.ends,
            knots,
            &self.orders,
            part,
            &mut self.tables,
        )
    }
}

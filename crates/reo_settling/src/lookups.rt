//! What is looked up when parts are settled.
ghost use Rattle.std.specs.Prelude.{◌≡◌, IfOk, length};
ghost use Rattle.reo_net_base.specs.Net.{net_of};
ghost use Rattle.reo_net_circuit.specs.found_ends.Ends.{AreEnds};
ghost use Rattle.reo_net_laws.specs.Knots.{AreKnots};
ghost use Rattle.reo_part_plans.specs.Plannings.{Kept as KeptRows};
ghost use Rattle.reo_settling.specs.Lookups.{AreLookups};

use reo_flags::Flags;
use reo_item_bounds::Bounds;
use reo_knots::Knots;
use reo_mark_search::MarkSearch;
use reo_net_base::Primitive;
use reo_net_circuit::{Circuit, Ends};
use reo_part_plans::Remembered;
use reo_search_tables::{SearchTables, orders_of};
use reo_values::{List, NoMemory, empty_lists};
use std::alloc::Global;

/// What is looked up when parts are settled: the joints of each part, in order, and those of them
/// that flow, and whether these are told for the rows that are kept; bounds on the items of joints;
/// the rows that are remembered; what the search by marks keeps; and the tables of the search by
/// values, and of each part whether they were made for its state.
#[derive(Drop)]
pub struct Lookups {
    pub(crate) orders: List<List<usize>>,
    pub(crate) flowing: List<List<usize>>,
    pub(crate) told: bool,
    pub(crate) fresh: Flags,
    pub(crate) tables: Option<SearchTables>,
    pub(crate) bounds: Bounds,
    pub(crate) plans: Remembered,
    pub(crate) marks: MarkSearch,
}

impl Lookups {
    /// For a circuit of which nothing was looked up. `NoMemory` is out of memory.
    pub fn new<P: Primitive>(
        alloc: Global,
        circuit: &Circuit<P>,
        knots: &Knots,
        ends: &Ends,
    ) -> Result<Lookups, NoMemory>
        requires knots { AreKnots (net_of P.behaviour circuit.now) knots.now }
        requires ends { AreEnds (net_of P.behaviour circuit.now) ends.now }
        ensures { IfOk result (λ made. (kept : KeptRows)
            → AreLookups (net_of P.behaviour circuit.now) knots.now kept made) }
    {
        let orders = orders_of(alloc, circuit, knots)?;
        let flowing = empty_lists(alloc, knots.count())?;
        let fresh = Flags::new(alloc, knots.count(), false)?;
        let bounds = Bounds::new(alloc, circuit)?;
        let plans = Remembered::new(alloc, knots.count())?;
        let marks = MarkSearch::new(alloc, circuit, ends)?;
        Ok(Lookups {
            orders,
            flowing,
            told: false,
            fresh,
            tables: None,
            bounds,
            plans,
            marks,
        })
    }

    /// For each part its joints that flow. They are those of the rows that are kept of a settled
    /// part, where they are told.
    pub fn flowing(&self) -> &List<List<usize>>
        ensures { result.now ≡ self.now.flowing }
    {
        &self.flowing
    }

    /// Whether the joints that flow are told.
    pub fn is_told(&self) -> bool
        ensures { result ≡ self.now.told }
    {
        self.told
    }
}

//! The tables of one part.
ghost use Rattle.std.specs.Prelude.{◌≡◌, ◌≢◌, ◌<◌, ℕ, OnOk};
ghost use Rattle.reo_net_base.specs.Net.{net_of};
ghost use Rattle.reo_net_circuit.specs.found_ends.Ends.{AreEnds};
ghost use Rattle.reo_net_laws.specs.Knots.{AreKnots, in_knot, knot_count};
ghost use Rattle.reo_search_tables.specs.SearchTables.{HasRoom, AreRightOn};
ghost use Rattle.reo_search_tables.specs.Orders.{AreOrders};

use crate::renewing::renew;
use crate::tables::SearchTables;
use reo_knots::Knots;
use reo_net_base::Primitive;
use reo_net_circuit::{Circuit, Ends};
use reo_values::{List, NoMemory};
use std::alloc::Global;

/// Makes the tables of a part anew, for the present state of the circuit. What is right on other
/// parts stays so, also after `NoMemory`, which is out of memory. It costs what the part has.
pub fn renew_part<P: Primitive>(
    alloc: Global,
    circuit: &Circuit<P>,
    ends: &Ends,
    knots: &Knots,
    orders: &List<List<usize>>,
    part: usize,
    tables: &mut SearchTables,
) -> Result<(), NoMemory>
    requires ends { AreEnds (net_of P.behaviour circuit.now) ends.now }
    requires knots { AreKnots (net_of P.behaviour circuit.now) knots.now }
    requires orders { AreOrders (net_of P.behaviour circuit.now) knots.now orders.now }
    requires part { part < knot_count knots.now }
    requires room { HasRoom (net_of P.behaviour circuit.now) tables.old }
    ensures right { let net = net_of P.behaviour circuit.now in
        OnOk result (AreRightOn net (in_knot knots.now.numbers part) tables.new) }
    ensures room { HasRoom (net_of P.behaviour circuit.now) tables.new }
    ensures others { let net = net_of P.behaviour circuit.now in
        (k : ℕ) → k < knot_count knots.now → k ≢ part
        → AreRightOn net (in_knot knots.now.numbers k) tables.old
        → AreRightOn net (in_knot knots.now.numbers k) tables.new }
{
    circuit.known();
    let joints = orders.at(part).as_slice();
    renew(alloc, circuit, ends, knots.sides(part), joints, tables)
}

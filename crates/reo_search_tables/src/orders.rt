//! The joints of each part, in the order of the circuit.
ghost use Rattle.std.specs.Prelude.{◌≡◌, ◌<◌, IfOk, OnOk, length};
ghost use Rattle.reo_net_base.specs.Net.{net_of};
ghost use Rattle.reo_side_tables.specs.Listing.{AreEmpty, IsAdded};
ghost use Rattle.reo_net_laws.specs.Knots.{AreKnots};
ghost use Rattle.reo_search_tables.specs.Orders.{AreOrders};

use reo_knots::Knots;
use reo_net_base::Primitive;
use reo_net_circuit::Circuit;
use reo_side_tables::{empty_lists, giver_side};
use reo_values::{List, NoMemory};
use std::alloc::Global;

/// Adds a joint to the list of a part.
fn add(lists: &mut List<List<usize>>, part: usize, joint: usize) -> Result<(), NoMemory>
    requires { part < length lists.old }
    ensures { OnOk result (IsAdded lists.old lists.new part joint) }
{
    let list = lists.at_mut(part);
    list.push(joint)?;
    Ok(())
}

/// The joints of each part, as they stand in the order of the circuit, which is gone through once.
/// `NoMemory` is out of memory.
pub fn orders_of<P: Primitive>(
    alloc: Global,
    circuit: &Circuit<P>,
    knots: &Knots,
) -> Result<List<List<usize>>, NoMemory>
    requires { AreKnots (net_of P.behaviour circuit.now) knots.now }
    ensures { IfOk result (AreOrders (net_of P.behaviour circuit.now) knots.now) }
{
    circuit.known();
    let order = circuit.order();
    let mut orders = empty_lists(alloc, knots.count())?;
    for joint in order {
        let part = knots.knot_of(giver_side(circuit, *joint));
        add(&mut orders, part, *joint)?;
    }
    Ok(orders)
}

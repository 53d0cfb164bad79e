//! Tables that are kept, made ready for a search.
ghost use Rattle.std.specs.Prelude.{◌≡◌, IfOk, OnOk, length};
ghost use Rattle.reo_net_laws.specs.Knots.{knot_count};
ghost use Rattle.reo_search_tables.specs.Orders.{AreOrders};
ghost use Rattle.reo_search_tables.specs.SearchTables.{AreReady};
ghost use Rattle.reo_part_plans.specs.Plannings.{IsPlanning, net_in};
ghost use Rattle.reo_settling.specs.Held.{AreFreshTables, MayBeFresh};

use reo_flags::Flags;
use reo_net_base::Primitive;
use reo_part_plans::{Planning, tables_of};
use reo_search_tables::{SearchTables, renew_part};
use reo_values::{List, NoMemory};
use std::alloc::Global;

/// Makes the tables of all parts anew where they are not fresh. The marks stay.
fn renew<P: Primitive>(
    alloc: Global,
    planning: &Planning<'_, P>,
    orders: &List<List<usize>>,
    fresh: &Flags,
    tables: &mut SearchTables,
) -> Result<(), NoMemory>
    requires planning { IsPlanning (net_in P.behaviour planning.now) planning.now }
    requires orders { let knots = planning.now.knots.now in
        AreOrders (net_in P.behaviour planning.now) knots orders.now }
    requires one_each { length fresh.now ≡ knot_count planning.now.knots.now }
    requires tables { let knots = planning.now.knots.now in
        AreFreshTables (net_in P.behaviour planning.now) knots fresh.now tables.old }
    ensures { let ends = planning.now.ends.now in
        OnOk result (AreReady (net_in P.behaviour planning.now) ends tables.new) }
{
    planning.circuit.known();
    let mut part = fresh.next_clear(0);
    while part < fresh.len() {
        renew_part(
            alloc,
            planning.circuit,
            planning.ends,
            planning.knots,
            orders,
            part,
            tables,
        )?;
        part = fresh.next_clear(part + 1);
    }
    Ok(())
}

/// The tables of a circuit in its present state, from those that are kept, if there are any: only
/// what they have of parts that are not fresh is made anew. `NoMemory` is out of memory.
pub(crate) fn renewed<P: Primitive>(
    alloc: Global,
    planning: &Planning<'_, P>,
    orders: &List<List<usize>>,
    fresh: &Flags,
    tables: Option<SearchTables>,
) -> Result<SearchTables, NoMemory>
    requires planning { IsPlanning (net_in P.behaviour planning.now) planning.now }
    requires orders { let knots = planning.now.knots.now in
        AreOrders (net_in P.behaviour planning.now) knots orders.now }
    requires one_each { length fresh.now ≡ knot_count planning.now.knots.now }
    requires tables { let knots = planning.now.knots.now in
        MayBeFresh (net_in P.behaviour planning.now) knots fresh.now tables }
    ensures { let ends = planning.now.ends.now in
        IfOk result (AreReady (net_in P.behaviour planning.now) ends) }
{
    match tables {
        Some(mut tables) => {
            renew(alloc, planning, orders, fresh, &mut tables)?;
            Ok(tables)
        }
        None => tables_of(alloc, planning.circuit, planning.ends),
    }
}

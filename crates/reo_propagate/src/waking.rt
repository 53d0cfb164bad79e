//! Letting a side wait where a joint of it lost values.
ghost use Rattle.std.specs.Prelude.{◌≡◌, ◌<◌, true, false, OnOk, OnErr, length, slice_index_or};
ghost use Rattle.reo_net_base.specs.Net.{net_of, all_sides};
ghost use Rattle.reo_side_tables.specs.Marks.{IsJointOf};
ghost use Rattle.reo_rows.specs.Groups.{AreNoted};
ghost use Rattle.reo_rows.specs.Rows.{AreTables};
ghost use Rattle.reo_rows.specs.Basis.{IsReadyOn};
ghost use Rattle.reo_rows.specs.Sets.{family_of};
ghost use Rattle.reo_propagate.specs.Narrow.{IsAwakeOrStays};

use crate::queue::WaitingSides;
use reo_net_base::Primitive;
use reo_rows::{Basis, RowFlags, Rows, can_stay};
use reo_values::NoMemory;

/// Lets a side wait where a joint of it lost values, unless it can stay at rest: no value with flow
/// was lost there, and each of its rows has the mark of some value there, but for some that it can
/// do without. `NoMemory` is out of memory.
pub fn wake<P: Primitive>(
    basis: &Basis<'_, P>,
    alive: &RowFlags,
    rows: &mut Rows,
    queue: &mut WaitingSides,
    side: usize,
    joint: usize,
    lost_flow: bool,
) -> Result<(), NoMemory>
    requires ready { let net = net_of P.behaviour basis.now.circuit.now in
        IsReadyOn net basis.now alive.now }
    requires tables { let net = net_of P.behaviour basis.now.circuit.now in
        AreTables net basis.now.items.now rows.old }
    requires side { let net = net_of P.behaviour basis.now.circuit.now in
        side < length (all_sides net.primitives) }
    requires joint { IsJointOf (net_of P.behaviour basis.now.circuit.now) side joint }
    requires waits { let net = net_of P.behaviour basis.now.circuit.now in
        length queue.old.waits ≡ length (all_sides net.primitives) }
    requires noted { let net = net_of P.behaviour basis.now.circuit.now in
        slice_index_or queue.old.waits side true ≡ false
        → AreNoted net rows.old.live side rows.old.notes }
    ensures tables { let net = net_of P.behaviour basis.now.circuit.now in
        AreTables net basis.now.items.now rows.new }
    ensures awake { let net = net_of P.behaviour basis.now.circuit.now in
        OnOk result (IsAwakeOrStays net (family_of alive.now) rows.old rows.new queue.old queue.new
        side joint lost_flow) }
    ensures err { OnErr result (rows.new ≡ rows.old) }
{
    if *queue.waits.at(side) {
        return queue.wake(side);
    }
    if !lost_flow && can_stay(basis, alive, rows, side, joint) {
        return Ok(());
    }
    queue.wake(side)
}

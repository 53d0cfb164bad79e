//! Making the tables of a set of sides anew.
ghost use Rattle.std.specs.Prelude.{◌≡◌, ◌<◌, ℕ, Bool, true, OnOk, Contains, length};
ghost use Rattle.reo_net_base.specs.Net.{net_of, all_sides};
ghost use Rattle.reo_net_laws.specs.Parts.{IsClosed};
ghost use Rattle.reo_net_circuit.specs.found_ends.Ends.{AreEnds};
ghost use Rattle.reo_joint_values.specs.InOrder.{AreInOrder};
ghost use Rattle.reo_propagate.specs.Queues.{among};
ghost use Rattle.reo_search_tables.specs.SearchTables.{HasRoom, IsSideRight, IsJointRight, AreRightOn, AreApart};
ghost use Rattle.reo_search_tables.specs.Renewing.{OnlySides, OnlyJoints};
ghost use Rattle.reo_search_tables.specs.Orders.{AreJointsOf};

use crate::boards::renew_boards;
use crate::notes::{renew_live, renew_notes};
use crate::tables::SearchTables;
use crate::values::renew_values;
use reo_net_base::Primitive;
use reo_net_circuit::{Circuit, Ends};
use reo_reach::reach_at;
use reo_values::NoMemory;
use std::alloc::Global;

/// Makes what the tables have of some joints anew.
fn renew_joints<P: Primitive>(
    alloc: Global,
    circuit: &Circuit<P>,
    ends: &Ends,
    joints: &[usize],
    tables: &mut SearchTables,
) -> Result<(), NoMemory>
    requires ends { AreEnds (net_of P.behaviour circuit.now) ends.now }
    requires room { HasRoom (net_of P.behaviour circuit.now) tables.old }
    requires joints { AreInOrder (net_of P.behaviour circuit.now) joints.now }
    ensures right { let net = net_of P.behaviour circuit.now in
        OnOk result ((j : ℕ) → Contains joints.now j → IsJointRight net tables.new j) }
    ensures room { HasRoom (net_of P.behaviour circuit.now) tables.new }
    ensures only { OnlyJoints joints.now tables.old tables.new }
{
    reach_at(alloc, circuit, ends, joints, &mut tables.supply)?;
    let supply = &tables.supply;
    renew_values(alloc, supply, joints, true, &mut tables.state.alive)?;
    renew_values(alloc, supply, joints, false, &mut tables.state.rows.seen)
}

/// Makes what the tables have of some sides anew.
fn renew_sides<P: Primitive>(
    alloc: Global,
    circuit: &Circuit<P>,
    ends: &Ends,
    sides: &[usize],
    tables: &mut SearchTables,
) -> Result<(), NoMemory>
    requires ends { AreEnds (net_of P.behaviour circuit.now) ends.now }
    requires room { HasRoom (net_of P.behaviour circuit.now) tables.old }
    requires sides { (s : ℕ) → among sides.now s ≡ true
        → s < length (all_sides (net_of P.behaviour circuit.now).primitives) }
    ensures right { let net = net_of P.behaviour circuit.now in
        OnOk result ((s : ℕ) → among sides.now s ≡ true → IsSideRight net tables.new s) }
    ensures room { HasRoom (net_of P.behaviour circuit.now) tables.new }
    ensures only { OnlySides sides.now tables.old tables.new }
{
    renew_boards(alloc, circuit, ends, sides, &mut tables.boards)?;
    let rows = &mut tables.state.rows;
    renew_live(alloc, circuit, sides, &mut rows.live)?;
    renew_notes(alloc, circuit, sides, &mut rows.notes)
}

/// Makes the tables of a set of sides anew, for the present state of the circuit: the boards of
/// these sides and the flags of their rows, and the items of their joints and the flags of these.
/// What they have of other sides and joints stays, and so does what is right there, also after
/// `NoMemory`, which is out of memory. It costs what the set has.
pub(crate) fn renew<P: Primitive>(
    alloc: Global,
    circuit: &Circuit<P>,
    ends: &Ends,
    sides: &[usize],
    joints: &[usize],
    tables: &mut SearchTables,
) -> Result<(), NoMemory>
    requires ends { AreEnds (net_of P.behaviour circuit.now) ends.now }
    requires room { HasRoom (net_of P.behaviour circuit.now) tables.old }
    requires sides { (s : ℕ) → among sides.now s ≡ true
        → s < length (all_sides (net_of P.behaviour circuit.now).primitives) }
    requires joints { AreJointsOf (net_of P.behaviour circuit.now) (among sides.now) joints.now }
    ensures right { let net = net_of P.behaviour circuit.now in
        OnOk result (AreRightOn net (among sides.now) tables.new) }
    ensures room { HasRoom (net_of P.behaviour circuit.now) tables.new }
    ensures others { let net = net_of P.behaviour circuit.now in
        (other : ℕ → Bool) → IsClosed net other → AreApart (among sides.now) other
        → AreRightOn net other tables.old → AreRightOn net other tables.new }
{
    circuit.known();
    renew_joints(alloc, circuit, ends, joints, tables)?;
    renew_sides(alloc, circuit, ends, sides, tables)
}

//! Going through joints.
ghost use Rattle.std.specs.Prelude.{◌≡◌, ◌<◌, ◌+◌, ℕ, IfOk, OnOk, OnErr, Contains, length};
ghost use Rattle.reo_net_base.specs.Ends.{IsGiver};
ghost use Rattle.reo_net_base.specs.Net.{net_of, behaviour_at};
ghost use Rattle.reo_net_circuit.specs.found_ends.Ends.{AreEnds};
ghost use Rattle.reo_reach.specs.Added.{IsMade, IsRenewed};
ghost use Rattle.reo_joint_values.specs.InOrder.{AreInOrder};
ghost use Rattle.reo_reach.specs.Supplied.{AreShort, HasPlaces, IsReached, IsSupply, OthersStay};

use crate::giving::Giving;
use crate::rows::add_row;
use crate::supply::Supply;
use reo_net_base::{End, Primitive};
use reo_net_circuit::{Circuit, Ends, ends_of};
use reo_values::{List, NoMemory, Value};
use std::alloc::Global;

/// How many rows of an end's side are no jam rows.
fn plain_rows<P: Primitive>(circuit: &Circuit<P>, giver: End) -> usize
    requires { IsGiver (net_of P.behaviour circuit.now) giver }
    ensures { let b = behaviour_at (net_of P.behaviour circuit.now).primitives giver.primitive in
        result + 1 ≡ b.rows (b.side_of giver.end) }
{
    circuit.known();
    let primitive = circuit.primitive(giver.primitive);
    primitive.rows(primitive.side_of(giver.end)) - 1
}

/// The items at a joint, by the lists at the joints that bring what rows give there.
fn items_of<P: Primitive>(
    alloc: Global,
    circuit: &Circuit<P>,
    ends: &Ends,
    supply: &Supply,
    joint: usize,
) -> Result<List<Value>, NoMemory>
    requires ends { AreEnds (net_of P.behaviour circuit.now) ends.now }
    requires supply { HasPlaces (net_of P.behaviour circuit.now) supply.now }
    requires joint { joint < length circuit.now.joints }
    ensures { let net = net_of P.behaviour circuit.now in
        IfOk result (IsMade net supply.now joint) }
{
    circuit.known();
    let giver = circuit.joint(joint).giver;
    let mut items = List::new(alloc);
    for row in 0..plain_rows(circuit, giver) {
        let giving = Giving {
            circuit,
            ends,
            supply,
            giver,
            row,
        };
        add_row(alloc, &giving, &mut items)?;
    }
    Ok(items)
}

/// Makes the list of a joint anew.
fn renew<P: Primitive>(
    alloc: Global,
    circuit: &Circuit<P>,
    ends: &Ends,
    joint: usize,
    supply: &mut Supply,
) -> Result<(), NoMemory>
    requires ends { AreEnds (net_of P.behaviour circuit.now) ends.now }
    requires supply { HasPlaces (net_of P.behaviour circuit.now) supply.old }
    requires joint { joint < length circuit.now.joints }
    ensures renewed { let net = net_of P.behaviour circuit.now in
        OnOk result (IsRenewed net supply.old supply.new joint) }
    ensures err { OnErr result (supply.new ≡ supply.old) }
{
    let items = items_of(alloc, circuit, ends, supply, joint)?;
    supply.put(joint, items);
    Ok(())
}

/// Makes the lists and marks of some joints anew, for the present state of the circuit. The lists
/// and marks of other joints stay, also after `NoMemory`, which is out of memory.
///
/// Each of these joints stands behind all that bring what some row gives there, as do the joints
/// of a knot in the circuit's order. Each row at these joints is looked at once, and each item
/// that it takes; no joint is searched for.
pub fn reach_at<P: Primitive>(
    alloc: Global,
    circuit: &Circuit<P>,
    ends: &Ends,
    joints: &[usize],
    supply: &mut Supply,
) -> Result<(), NoMemory>
    requires ends { AreEnds (net_of P.behaviour circuit.now) ends.now }
    requires joints { AreInOrder (net_of P.behaviour circuit.now) joints.now }
    requires supply { HasPlaces (net_of P.behaviour circuit.now) supply.old }
    ensures reached { let net = net_of P.behaviour circuit.now in
        OnOk result ((j : ℕ) → Contains joints.now j → IsReached net supply.new j) }
    ensures others { OthersStay joints.now supply.old supply.new }
    ensures places { HasPlaces (net_of P.behaviour circuit.now) supply.new }
    ensures short { AreShort supply.old → AreShort supply.new }
{
    for at in 0..joints.len() {
        renew(alloc, circuit, ends, joints[at], supply)?;
    }
    Ok(())
}

/// The items that can stand at each joint of a circuit in its present state. `NoMemory` is out of
/// memory.
pub fn reach<P: Primitive>(alloc: Global, circuit: &Circuit<P>) -> Result<Supply, NoMemory>
    ensures supply { IfOk result (IsSupply (net_of P.behaviour circuit.now)) }
    ensures short { IfOk result AreShort }
{
    circuit.known();
    let ends = ends_of(alloc, circuit)?;
    let mut supply = Supply::unknown(alloc, circuit.joint_count())?;
    reach_at(alloc, circuit, &ends, circuit.order(), &mut supply)?;
    Ok(supply)
}

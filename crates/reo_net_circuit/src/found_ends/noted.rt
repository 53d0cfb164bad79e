//! Noting joints at their ends.
ghost use Rattle.std.specs.Prelude.{◌≡◌, ◌<◌, ℕ, IfOk, cond, length};
ghost use Rattle.reo_net_base.specs.declared.joint.End.{End as EndPlace};
ghost use Rattle.reo_net_base.specs.Net.{net_of, end_eq, is_at};
ghost use Rattle.reo_net_circuit.specs.found_ends.Ends.{HasEnd, joint_at};
ghost use Rattle.reo_net_circuit.specs.found_ends.Noted.{HasPlaces, AreSamePlaces, AreNoted};

use crate::Circuit;
use reo_net_base::{End, Joint, Primitive};
use reo_values::{List, NoMemory};
use std::alloc::Global;

/// A zero for each of so many ends.
fn no_ends(alloc: Global, count: usize) -> Result<List<usize>, NoMemory>
    ensures { IfOk result (λ list. length list ≡ count) }
{
    match vec![in alloc; 0; count] {
        Ok(list) => Ok(List::from_vec(list)),
        Err(_) => Err(NoMemory),
    }
}

/// A zero for each end.
pub(crate) fn no_joints<P: Primitive>(
    alloc: Global,
    circuit: &Circuit<P>,
) -> Result<Vec<List<usize>>, NoMemory>
    ensures { let net = net_of P.behaviour circuit.now in IfOk result (λ table.
        HasPlaces net.primitives (length net.primitives) table.items) }
{
    let mut table = List::new(alloc);
    for index in 0..circuit.primitives().len() {
        let list = no_ends(alloc, circuit.primitive(index).ends())?;
        table.push(list)?;
    }
    Ok(table.into_vec())
}

/// Notes a joint at an end.
fn note_end(table: &mut Vec<List<usize>>, end: End, joint: usize)
    requires { HasEnd table.old.items end }
    ensures same { AreSamePlaces table.old.items table.new.items }
    ensures noted { (e : EndPlace) →
        joint_at table.new.items e ≡ cond (end_eq end e) joint (joint_at table.old.items e) }
{
    let list = &mut table[end.primitive];
    *list.at_mut(end.end) = joint;
}

/// Notes a joint at both its ends.
fn note_joint(table: &mut Vec<List<usize>>, joint: Joint, index: usize)
    requires giver { HasEnd table.old.items joint.giver }
    requires taker { HasEnd table.old.items joint.taker }
    ensures same { AreSamePlaces table.old.items table.new.items }
    ensures noted { (e : EndPlace) →
        joint_at table.new.items e ≡ cond (is_at e joint) index (joint_at table.old.items e) }
{
    note_end(table, joint.giver, index);
    note_end(table, joint.taker, index);
}

/// Notes each joint at both its ends.
pub(crate) fn note_all<P: Primitive>(table: &mut Vec<List<usize>>, circuit: &Circuit<P>)
    requires { let net = net_of P.behaviour circuit.now in
        HasPlaces net.primitives (length net.primitives) table.old.items }
    ensures places { let net = net_of P.behaviour circuit.now in
        HasPlaces net.primitives (length net.primitives) table.new.items }
    ensures noted { let net = net_of P.behaviour circuit.now in
        AreNoted net (length net.joints) table.new.items }
{
    circuit.known();
    for index in 0..circuit.joint_count() {
        note_joint(table, circuit.joint(index), index);
    }
}

//! The sides and the loop joints of each knot.
ghost use Rattle.std.specs.Prelude.{◌≡◌, ◌<◌, IfOk, OnOk, length};
ghost use Rattle.reo_net_base.specs.Net.{net_of};
ghost use Rattle.reo_net_base.specs.Sides.{side_count};
ghost use Rattle.reo_net_laws.specs.KnotGroups.{AreEmpty, IsAdded, AreSidesBelow, AreLoopsBelow, AreBelow};

use reo_net_base::Primitive;
use reo_net_circuit::Circuit;
use reo_values::{List, NoMemory};
use std::alloc::Global;

/// So many empty lists.
fn no_groups(alloc: Global, count: usize) -> Result<Vec<List<usize>>, NoMemory>
    ensures { IfOk result (λ groups. AreEmpty groups.items count) }
{
    let mut groups = List::new(alloc);
    for index in 0..count {
        let _ = index;
        groups.push(List::new(alloc))?;
    }
    Ok(groups.into_vec())
}

/// Adds a number to the list of a knot, if it is wanted there.
fn add(
    groups: &mut Vec<List<usize>>,
    knot: usize,
    number: usize,
    wanted: bool,
) -> Result<(), NoMemory>
    requires { knot < length groups.old.items }
    ensures { OnOk result (IsAdded groups.old.items groups.new.items knot number wanted) }
{
    if !wanted {
        return Ok(());
    }
    let group = &mut groups[knot];
    group.push(number)
}

/// The sides of each knot.
pub(crate) fn group_sides(
    alloc: Global,
    numbers: &[usize],
    count: usize,
) -> Result<Vec<List<usize>>, NoMemory>
    requires { AreBelow numbers.now count }
    ensures { IfOk result (λ groups.
        AreSidesBelow numbers.now (length numbers.now) groups.items count) }
{
    let mut groups = no_groups(alloc, count)?;
    for side in 0..numbers.len() {
        add(&mut groups, numbers[side], side, true)?;
    }
    Ok(groups)
}

/// The loop joints of each knot.
pub(crate) fn group_loops<P: Primitive>(
    alloc: Global,
    circuit: &Circuit<P>,
    numbers: &[usize],
    loops: &[bool],
    count: usize,
) -> Result<Vec<List<usize>>, NoMemory>
    requires numbers { length numbers.now ≡ side_count (net_of P.behaviour circuit.now) }
    requires below { AreBelow numbers.now count }
    requires loops { length loops.now ≡ length circuit.now.joints }
    ensures { let net = net_of P.behaviour circuit.now in IfOk result (λ groups.
        AreLoopsBelow net numbers.now loops.now (length net.joints) groups.items count) }
{
    circuit.known();
    let mut groups = no_groups(alloc, count)?;
    for index in 0..circuit.joint_count() {
        let joint = circuit.joint(index);
        let side = circuit.side_of(joint.giver);
        add(&mut groups, numbers[side], index, loops[index])?;
    }
    Ok(groups)
}

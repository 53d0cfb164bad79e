//! The joints of a side, and the rows that are not as their groups.
ghost use Rattle.std.specs.Prelude.{◌≡◌, ◌<◌, ℕ, [], ◌∷◌, ◌++◌, IfOk, OnOk, length, slice_index_or};
ghost use Rattle.reo_net_base.specs.Net.{net_of, all_sides};
ghost use Rattle.reo_net_circuit.specs.found_ends.Ends.{AreEnds};
ghost use Rattle.reo_side_tables.specs.Listing.{Lists, AreOnce, AreEmpty, IsAdded};
ghost use Rattle.reo_side_tables.specs.Marks.{side_in, IsJointOf, IsApartAt};

use reo_net_base::{End, Primitive};
use reo_net_circuit::{Circuit, Ends};
use reo_values::{List, NoMemory};
use std::alloc::Global;

/// So many lists, all empty.
pub fn empty_lists(alloc: Global, count: usize) -> Result<List<List<usize>>, NoMemory>
    ensures { IfOk result (AreEmpty count) }
{
    let mut lists = List::new(alloc);
    for _index in 0..count {
        lists.push(List::new(alloc))?;
    }
    Ok(lists)
}

/// Adds a number to one of the lists.
pub(crate) fn add(
    lists: &mut List<List<usize>>,
    place: usize,
    number: usize,
) -> Result<(), NoMemory>
    requires { place < length lists.old }
    ensures { OnOk result (IsAdded lists.old lists.new place number) }
{
    let list = lists.at_mut(place);
    list.push(number)?;
    Ok(())
}

/// The joints of a side, each once, in the order of its ends.
pub(crate) fn joints_of<P: Primitive>(
    alloc: Global,
    circuit: &Circuit<P>,
    ends: &Ends,
    side: usize,
) -> Result<List<usize>, NoMemory>
    requires ends { AreEnds (net_of P.behaviour circuit.now) ends.now }
    requires side { side < length (all_sides (net_of P.behaviour circuit.now).primitives) }
    ensures joints { IfOk result (Lists (IsJointOf (net_of P.behaviour circuit.now) side)) }
    ensures once { IfOk result AreOnce }
{
    circuit.known();
    let owner = circuit.owner(side);
    let primitive = circuit.primitive(owner.primitive);
    let mut joints = List::new(alloc);
    for end in 0..primitive.ends() {
        if primitive.side_of(end) == owner.side {
            joints.push(ends.joint_at(End {
                primitive: owner.primitive,
                end,
            }))?;
        }
    }
    Ok(joints)
}

/// The rows of a side that are not as their groups at each end of its primitive.
pub(crate) fn apart_of<P: Primitive>(
    alloc: Global,
    circuit: &Circuit<P>,
    side: usize,
) -> Result<List<List<usize>>, NoMemory>
    requires side { side < length (all_sides (net_of P.behaviour circuit.now).primitives) }
    ensures ends { let net = net_of P.behaviour circuit.now in
        IfOk result (λ lists. length lists ≡ (side_in net side).of.ends) }
    ensures apart { let net = net_of P.behaviour circuit.now in
        IfOk result (λ lists. (end : ℕ) → Lists (IsApartAt net side end)
        (slice_index_or lists end [])) }
{
    circuit.known();
    let owner = circuit.owner(side);
    let mut lists = empty_lists(alloc, circuit.primitive(owner.primitive).ends())?;
    for row in 0..circuit.rows(side) {
        match circuit.apart(side, row) {
            None => {}
            Some(end) => add(&mut lists, end, row)?,
        }
    }
    Ok(lists)
}

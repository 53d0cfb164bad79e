//! Where the marks of ends stand.
ghost use Rattle.std.specs.Prelude.{◌≡◌, ◌+◌, ◌*◌, ◌<◌, ◌≤◌, ℕ, cond, IfOk, length, slice_index};
ghost use Rattle.reo_net_base.specs.Forms.{HasForm};
ghost use Rattle.reo_net_base.specs.Net.{net_of, behaviour_at, end_of};
ghost use Rattle.reo_net_circuit.specs.found_ends.Ends.{AreEnds, joint_at};
ghost use Rattle.reo_mark_search.specs.Spots.{AreSpots, AreEndsOf};

use reo_net_base::{End, Form, Primitive};
use reo_net_circuit::{Circuit, Ends, SideOwner};
use reo_values::{List, NoMemory};
use std::alloc::Global;

/// The place of an end.
fn spot<P: Primitive>(circuit: &Circuit<P>, ends: &Ends, primitive: usize, end: usize) -> usize
    requires ends { AreEnds (net_of P.behaviour circuit.now) ends.now }
    requires primitive { primitive < length circuit.now.primitives }
    requires end { end < (behaviour_at (net_of P.behaviour circuit.now).primitives primitive).ends }
    ensures { let net = net_of P.behaviour circuit.now in
        result ≡ 2 * joint_at ends.now (end_of primitive end)
        + cond ((behaviour_at net.primitives primitive).takes_in end) 1 0 }
{
    circuit.known();
    let joint = ends.joint_at(End { primitive, end });
    if circuit.primitive(primitive).takes_in(end) {
        2 * joint + 1
    } else {
        2 * joint
    }
}

/// The places of the ends of a primitive. `NoMemory` is out of memory.
fn spots_at<P: Primitive>(
    alloc: Global,
    circuit: &Circuit<P>,
    ends: &Ends,
    primitive: usize,
) -> Result<List<usize>, NoMemory>
    requires ends { AreEnds (net_of P.behaviour circuit.now) ends.now }
    requires primitive { primitive < length circuit.now.primitives }
    ensures { let net = net_of P.behaviour circuit.now in
        IfOk result (λ made. (length made ≡ (behaviour_at net.primitives primitive).ends)
        × ((e : ℕ) → e < length made → slice_index made e
        ≡ 2 * joint_at ends.now (end_of primitive e)
        + cond ((behaviour_at net.primitives primitive).takes_in e) 1 0)) }
{
    let mut made = List::new(alloc);
    for end in 0..circuit.primitive(primitive).ends() {
        made.push(spot(circuit, ends, primitive, end))?;
    }
    Ok(made)
}

/// The places of the ends of all primitives. `NoMemory` is out of memory.
pub(crate) fn spots_of<P: Primitive>(
    alloc: Global,
    circuit: &Circuit<P>,
    ends: &Ends,
) -> Result<List<List<usize>>, NoMemory>
    requires ends { AreEnds (net_of P.behaviour circuit.now) ends.now }
    ensures { IfOk result (AreSpots (net_of P.behaviour circuit.now)) }
{
    circuit.known();
    let mut made = List::new(alloc);
    for primitive in 0..circuit.primitives().len() {
        made.push(spots_at(alloc, circuit, ends, primitive)?)?;
    }
    Ok(made)
}

/// The sides at the two places of each joint. `NoMemory` is out of memory.
pub(crate) fn keepers_of<P: Primitive>(
    alloc: Global,
    circuit: &Circuit<P>,
) -> Result<List<usize>, NoMemory>
    ensures { IfOk result (λ made. length made ≡ 2 * length circuit.now.joints) }
{
    circuit.known();
    let mut made = List::new(alloc);
    for index in 0..circuit.joint_count() {
        let joint = circuit.joint(index);
        made.push(circuit.side_of(joint.giver))?;
        made.push(circuit.side_of(joint.taker))?;
    }
    Ok(made)
}

/// So many places from one on.
fn part_of<'a>(all: &'a [usize], from: usize, count: usize) -> &'a [usize]
    requires { from + count ≤ length all.now }
    ensures count { length result.now ≡ count }
    ensures each { (o : ℕ) → o < length result.now
        → slice_index result.now o ≡ slice_index all.now (from + o) }
{
    let rest = &all[from..];
    &rest[..count]
}

/// The places of the ends of a side of a form.
pub(crate) fn places_at<'a, P: Primitive>(
    circuit: &Circuit<P>,
    spots: &'a List<List<usize>>,
    owner: SideOwner,
    form: Form,
) -> &'a [usize]
    requires spots { AreSpots (net_of P.behaviour circuit.now) spots.now }
    requires primitive { owner.primitive < length circuit.now.primitives }
    requires form { HasForm form
        (behaviour_at (net_of P.behaviour circuit.now).primitives owner.primitive) owner.side }
    ensures { AreEndsOf (net_of P.behaviour circuit.now) spots.now owner.primitive owner.side
        form result.now }
{
    circuit.known();
    let all = spots.at(owner.primitive).as_slice();
    match form {
        Form::Single(_) => part_of(all, owner.side, 1),
        Form::Double(_) => part_of(all, 0, 2),
        Form::Merging(branches) => part_of(all, 0, branches.count + 1),
        Form::Replicating(branches) => part_of(all, 0, branches.count + 1),
    }
}

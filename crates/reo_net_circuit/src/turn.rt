//! No joints are to make a directed cycle of sides.
ghost use Rattle.std.specs.Prelude.{◌≡◌, ℕ, ◌+◌, ◌<◌, IfOk, EachIndex, map, length, slice_index, slice_index_or};
ghost use Rattle.reo_net_base.specs.Net.{net_of, behaviour_at, first_side, all_sides, side_at, from_sides, to_sides};
ghost use Rattle.reo_net_base.specs.Wired.{IsEnd, IsSorted};
ghost use Rattle.reo_net_circuit.specs.Parts.{wiring_of, AreJoints};
ghost use Rattle.reo_net_circuit.specs.Layout.{AreFirsts};

use crate::parts::{joint_at, primitive_at};
use reo_net_base::{End, Joint, Primitive, Sorted, order_or_cycle};
use reo_values::{List, NoMemory};
use std::alloc::Global;

/// The number of the side of an end.
#[tactic(auto, unfolding(reo_net_base::specs::Net::side_at))]
fn side_number<P: Primitive>(
    primitives: &[P],
    joints: &[Joint],
    firsts: &[usize],
    sides: usize,
    end: End,
) -> usize
    requires end { IsEnd (map P.behaviour primitives.now) end }
    requires firsts { AreFirsts (map P.behaviour primitives.now) firsts.now
        (length (map P.behaviour primitives.now)) }
    requires sides { sides ≡ length (all_sides (map P.behaviour primitives.now)) }
    ensures number { result ≡ side_at
        (net_of P.behaviour (wiring_of primitives.now 0 joints.now)) end }
    ensures in_range { result < sides }
{
    let _ = joints;
    let _ = sides;
    let side = primitive_at(primitives, end.primitive).side_of(end.end);
    firsts[end.primitive] + side
}

/// The sides that joints come from, and those that they go to.
struct JointSides {
    from: List<usize>,
    to: List<usize>,
}

/// The sides of the joints.
fn joint_sides<P: Primitive>(
    alloc: Global,
    primitives: &[P],
    firsts: &[usize],
    sides: usize,
    joints: &[Joint],
) -> Result<JointSides, NoMemory>
    requires joints { AreJoints (net_of P.behaviour (wiring_of primitives.now 0 joints.now)) }
    requires firsts { AreFirsts (map P.behaviour primitives.now) firsts.now
        (length (map P.behaviour primitives.now)) }
    requires sides { sides ≡ length (all_sides (map P.behaviour primitives.now)) }
    ensures from { IfOk result
        (λ made. made.from ≡ from_sides
        (net_of P.behaviour (wiring_of primitives.now 0 joints.now))) }
    ensures to { IfOk result
        (λ made. made.to ≡ to_sides (net_of P.behaviour (wiring_of primitives.now 0 joints.now))) }
    ensures from_range { IfOk result
        (λ made. EachIndex made.from (λ k. slice_index made.from k < sides)) }
    ensures to_range { IfOk result
        (λ made. EachIndex made.to (λ k. slice_index made.to k < sides)) }
{
    let mut from = List::new(alloc);
    let mut to = List::new(alloc);
    for index in 0..joints.len() {
        let Joint { giver, taker } = joint_at(joints, index);
        from.push(side_number(primitives, joints, firsts, sides, giver))?;
        to.push(side_number(primitives, joints, firsts, sides, taker))?;
    }
    Ok(JointSides { from, to })
}

/// An order of the joints, or the least joint on a directed cycle.
pub fn joint_order<P: Primitive>(
    alloc: Global,
    primitives: &[P],
    firsts: &[usize],
    sides: usize,
    joints: &[Joint],
) -> Result<Sorted, NoMemory>
    requires joints { AreJoints (net_of P.behaviour (wiring_of primitives.now 0 joints.now)) }
    requires firsts { AreFirsts (map P.behaviour primitives.now) firsts.now
        (length (map P.behaviour primitives.now)) }
    requires sides { sides ≡ length (all_sides (map P.behaviour primitives.now)) }
    ensures { IfOk result
        (IsSorted (from_sides (net_of P.behaviour (wiring_of primitives.now 0 joints.now)))
        (to_sides (net_of P.behaviour (wiring_of primitives.now 0 joints.now)))) }
{
    let JointSides { from, to } = joint_sides(alloc, primitives, firsts, sides, joints)?;
    match order_or_cycle(alloc, from.as_slice(), to.as_slice(), sides) {
        Ok(sorted) => Ok(sorted),
        Err(_) => Err(NoMemory),
    }
}

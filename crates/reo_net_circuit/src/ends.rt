//! Each end of a primitive is to be in exactly one joint.
ghost use Rattle.std.specs.Prelude.{◌≡◌, ◌≢◌, ℕ, ◌+◌, ◌<◌, ◌^◌, IfOk, MatchOption, map, length, slice_index, slice_index_or, cond, [], true, false};
ghost use Rattle.reo_net_base.specs.Net.{net_of, behaviour_at, end_eq, end_of, is_at};
ghost use Rattle.reo_net_circuit.specs.Parts.{wiring_of, AreJoints};
ghost use Rattle.reo_net_circuit.specs.Fault.{AllJoined, IsEndsFault};
ghost use Rattle.reo_net_circuit.specs.Counts.{count_at, AreCounts, SameRows};

use crate::parts::{joint_at, primitive_at, repeated};
use reo_net_base::{End, Joint, Primitive};
use reo_values::{List, NoMemory};
use std::alloc::Global;

/// Counts one more at an end.
fn count_end(counts: &mut [List<usize>], end: End)
    requires primitive { end.primitive < length counts.old }
    requires end { end.end < length (slice_index_or counts.old end.primitive []) }
    requires few { count_at counts.old end.primitive end.end < 2 ^ 40 }
    ensures same { SameRows counts.old counts.new }
    ensures counts { (i e : ℕ) → count_at counts.new i e ≡ count_at counts.old i e + cond
        (end_eq end (end_of i e)) 1 0 }
{
    let row = &mut counts[end.primitive];
    let count = *row.at(end.end);
    *row.at_mut(end.end) = count + 1;
}

/// Counts one more at the one or two ends of a joint.
fn count_joint(counts: &mut [List<usize>], joint: Joint)
    requires giver { joint.giver.primitive < length counts.old }
    requires giver_end { joint.giver.end < length
        (slice_index_or counts.old joint.giver.primitive []) }
    requires taker { joint.taker.primitive < length counts.old }
    requires taker_end { joint.taker.end < length
        (slice_index_or counts.old joint.taker.primitive []) }
    requires few_giver { count_at counts.old joint.giver.primitive joint.giver.end < 2 ^ 32 }
    requires few_taker { count_at counts.old joint.taker.primitive joint.taker.end < 2 ^ 32 }
    ensures same { SameRows counts.old counts.new }
    ensures counts { (i e : ℕ) → count_at counts.new i e ≡ count_at counts.old i e + cond
        (is_at (end_of i e) joint) 1 0 }
{
    let giver = joint.giver;
    let taker = joint.taker;
    count_end(counts, giver);
    if giver.primitive != taker.primitive || giver.end != taker.end {
        count_end(counts, taker);
    }
}

/// A zero at each end.
fn no_counts<P: Primitive>(alloc: Global, primitives: &[P]) -> Result<Vec<List<usize>>, NoMemory>
    ensures { IfOk result (λ counts. AreCounts (map P.behaviour primitives.now) [] counts.items) }
{
    let mut counts = List::new(alloc);
    for index in 0..primitives.len() {
        let row = repeated(alloc, 0, primitive_at(primitives, index).ends())?;
        counts.push(List::from_vec(row))?;
    }
    Ok(counts.into_vec())
}

/// How many joints are at each end.
fn joint_counts<P: Primitive>(
    alloc: Global,
    primitives: &[P],
    joints: &[Joint],
) -> Result<Vec<List<usize>>, NoMemory>
    requires few { length joints.now < 2 ^ 31 }
    requires joints { AreJoints (net_of P.behaviour (wiring_of primitives.now 0 joints.now)) }
    ensures { IfOk result
        (λ counts. AreCounts (map P.behaviour primitives.now) joints.now counts.items) }
{
    let mut counts = no_counts(alloc, primitives)?;
    for index in 0..joints.len() {
        let joint = joint_at(joints, index);
        count_joint(&mut counts, joint);
    }
    Ok(counts)
}

/// The first count that is not one.
fn not_one(counts: &[usize]) -> Option<usize>
    ensures { MatchOption result ((e : ℕ) → e < length counts.now → slice_index counts.now e ≡ 1)
        (λ e. (e < length counts.now) × (slice_index counts.now e ≢ 1)) }
{
    for (end, count) in counts.iter().enumerate() {
        if *count != 1 {
            return Some(end);
        }
    }
    None
}

/// The least primitive with an end that is not in exactly one joint.
pub fn ends_fault<P: Primitive>(
    alloc: Global,
    primitives: &[P],
    joints: &[Joint],
) -> Result<Option<usize>, NoMemory>
    requires few { length joints.now < 2 ^ 31 }
    requires joints { AreJoints (net_of P.behaviour (wiring_of primitives.now 0 joints.now)) }
    ensures { IfOk result
        (λ fault. MatchOption fault
        (AllJoined (net_of P.behaviour (wiring_of primitives.now 0 joints.now)))
        (IsEndsFault (net_of P.behaviour (wiring_of primitives.now 0 joints.now)))) }
{
    let counts = joint_counts(alloc, primitives, joints)?;
    for index in 0..counts.len() {
        if let Some(_) = not_one(counts[index].as_slice()) {
            return Ok(Some(index));
        }
    }
    Ok(None)
}

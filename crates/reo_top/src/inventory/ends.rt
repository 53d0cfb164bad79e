//! The nodes of ends.
ghost use Rattle.std.specs.Prelude.{◌≡◌, ◌<◌, ℕ, cond, length, replicate, IfOk, slice_index};
ghost use Rattle.reo_net_base.specs.Net.{end_of, end_eq, is_at};
ghost use Rattle.reo_top.specs.inventory.Ends.{AreHomes};

use reo_net_base::{End, Joint};
use reo_values::{List, NoMemory};
use std::alloc::Global;

/// So many zeros. `NoMemory` is out of memory.
fn zeros(alloc: Global, count: usize) -> Result<Vec<u32>, NoMemory>
    ensures { IfOk result (λ made. made.items ≡ replicate count 0) }
{
    match Vec::from_elem(alloc, 0, count) {
        Ok(made) => Ok(made),
        Err(_) => Err(NoMemory),
    }
}

/// Notes the node of an end, where it is the end of this number of its primitive.
fn note_end(table: &mut [u32], number: usize, end: End, home: u32)
    ensures { (i : ℕ) → i < length table.old → slice_index table.new i
        ≡ cond (end_eq end (end_of i number)) home (slice_index table.old i) }
{
    if end.end == number && end.primitive < table.len() {
        table[end.primitive] = home;
    }
}

/// Notes the node of a joint at both its ends.
fn note_joint(table: &mut [u32], number: usize, joint: Joint, home: u32)
    ensures { (i : ℕ) → i < length table.old → slice_index table.new i
        ≡ cond (is_at (end_of i number) joint) home (slice_index table.old i) }
{
    note_end(table, number, joint.giver, home);
    note_end(table, number, joint.taker, home);
}

/// The node of the end of this number of each of so many primitives: that of the first joint at
/// it, so the joints are gone through from the last to the first. `NoMemory` is out of memory.
pub(crate) fn homes_of_ends(
    alloc: Global,
    joints: &[Joint],
    homes: &[u32],
    count: usize,
    number: usize,
) -> Result<List<u32>, NoMemory>
    requires { length homes.now ≡ length joints.now }
    ensures { IfOk result (λ found. AreHomes joints.now homes.now count number found) }
{
    let mut table = zeros(alloc, count)?;
    let mut left = joints.len();
    while 0 < left {
        left -= 1;
        note_joint(&mut table, number, joints[left], homes[left]);
    }
    Ok(List::from_vec(table))
}

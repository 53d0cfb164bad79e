ghost use Rattle.std.specs.Prelude.{◌≡◌, ℕ, ◌+◌, ◌<◌, ◌≤◌, length, IfOk, slice_index};
ghost use Rattle.reo_net_base.specs.order.Front.{IsFront};
ghost use Rattle.reo_net_base.specs.order.Queue.{IsSkipped};

use crate::order::links::{Links, copied};
use crate::order::queue::{Queue, empty, push_all};
use std::alloc::{AllocError, Global};

/// The next arrow at a side, from one on, that is not placed.
fn skip(links: &Links, placed: &[bool], side: usize, wait: usize) -> usize
    requires flags { length placed.now ≡ length links.now.ends.items }
    requires wait { wait ≤ length links.now.ends.items }
    requires here { (j : ℕ) → wait ≡ j + 1 → slice_index links.now.ends.items j ≡ side }
    ensures { IsSkipped links.now.ends.items side placed.now wait result }
{
    let mut at = wait;
    while at > 0 && placed[at - 1] {
        at = links.next[at - 1];
    }
    at
}

/// As many arrows as can stand in a row, each behind all that feed it.
///
/// A side waits for one arrow into it at a time; once it waits for none, the arrows from it are
/// placed.
pub fn sort(alloc: Global, outs: &Links, ins: &Links) -> Result<Queue, AllocError>
    requires arrows { length ins.now.ends.items ≡ length outs.now.ends.items }
    requires sides { length ins.now.first.items ≡ length outs.now.first.items }
    ensures { IfOk result (λ front.
        IsFront outs.now.ends.items ins.now.ends.items front.order.items front.placed.items) }
{
    let mut queue = empty(alloc, outs.ends.len())?;
    let mut waits = copied(alloc, &ins.first)?;
    for start in 0..waits.len() {
        if waits[start] == 0 {
            push_all(&mut queue, outs, start)?;
        }
    }
    let mut at = 0;
    while at < queue.order.len() {
        let side = ins.ends[queue.order[at]];
        let old = waits[side];
        if old > 0 {
            let wait = skip(ins, &queue.placed, side, old);
            waits[side] = wait;
            if wait == 0 {
                push_all(&mut queue, outs, side)?;
            }
        }
        at += 1;
    }
    Ok(queue)
}

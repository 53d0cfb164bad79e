ghost use Rattle.std.specs.Prelude.{◌≡◌, ◌<◌, ◌↔◌, ◌⊎◌, IsTrue, length, IfOk, MatchOption, true, slice_index_or, false};
ghost use Rattle.reo_net_base.specs.order.Arrows.{OnCycle, NoCycle, IsLeastOnCycle};
ghost use Rattle.reo_net_base.specs.order.Front.{AreOff};
ghost use Rattle.reo_net_base.specs.order.Queue.{IsEmptyQueue};

use crate::order::links::Links;
use crate::order::queue::{Queue, clear, empty, push_all};
use std::alloc::{AllocError, Global};

/// Whether an arrow lies on a directed cycle.
///
/// The queue is empty before and after, so that one serves many searches.
fn is_on_cycle(
    queue: &mut Queue,
    outs: &Links,
    ins: &Links,
    arrow: usize,
) -> Result<bool, AllocError>
    requires arrows { length ins.now.ends.items ≡ length outs.now.ends.items }
    requires sides { length ins.now.first.items ≡ length outs.now.first.items }
    requires arrow { arrow < length outs.now.ends.items }
    requires queue { IsEmptyQueue
        (length outs.now.ends.items) queue.old.order.items queue.old.placed.items }
    ensures answer { IfOk result
        (λ is. IsTrue is ↔ OnCycle outs.now.ends.items ins.now.ends.items arrow) }
    ensures queue { IfOk result
        (λ is. IsEmptyQueue
        (length outs.now.ends.items) queue.new.order.items queue.new.placed.items) }
{
    push_all(queue, outs, ins.ends[arrow])?;
    let mut at = 0;
    while at < queue.order.len() {
        let side = ins.ends[queue.order[at]];
        push_all(queue, outs, side)?;
        at += 1;
    }
    let found = queue.placed[arrow];
    clear(queue);
    Ok(found)
}

/// Whether one of two lists has a flag at an arrow.
fn is_off(front: &[bool], back: &[bool], arrow: usize) -> bool
    requires front { arrow < length front.now }
    requires back { arrow < length back.now }
    ensures { IsTrue result
        ↔ ((slice_index_or front.now arrow false ≡ true)
        ⊎ (slice_index_or back.now arrow false ≡ true)) }
{
    front[arrow] || back[arrow]
}

/// The least arrow on a directed cycle.
///
/// Arrows with a flag in one of two lists are on none and are passed over: those before all cycles,
/// and those behind all. So only arrows between two cycles are searched from in vain.
pub fn least_on_cycle(
    alloc: Global,
    outs: &Links,
    ins: &Links,
    front: &[bool],
    back: &[bool],
) -> Result<Option<usize>, AllocError>
    requires arrows { length ins.now.ends.items ≡ length outs.now.ends.items }
    requires sides { length ins.now.first.items ≡ length outs.now.first.items }
    requires front { AreOff outs.now.ends.items ins.now.ends.items front.now }
    requires back { AreOff outs.now.ends.items ins.now.ends.items back.now }
    ensures { IfOk result
        (λ found. MatchOption found (NoCycle outs.now.ends.items ins.now.ends.items)
        (IsLeastOnCycle outs.now.ends.items ins.now.ends.items)) }
{
    let mut queue = empty(alloc, outs.ends.len())?;
    for arrow in 0..outs.ends.len() {
        if is_off(front, back, arrow) {
            continue;
        }
        if is_on_cycle(&mut queue, outs, ins, arrow)? {
            return Ok(Some(arrow));
        }
    }
    Ok(None)
}

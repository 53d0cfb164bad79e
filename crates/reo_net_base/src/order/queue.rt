ghost use Rattle.std.specs.Prelude.{◌≡◌, ℕ, ◌<◌, length, IfOk, OnOk, slice_index};
ghost use Rattle.reo_net_base.specs.order.Queue.{IsQueue, IsEmptyQueue, Pushed};

use crate::order::links::Links;
use std::alloc::{AllocError, Global};

/// Arrows in a row, none twice, with a flag at each that is there.
#[derive(Drop)]
pub struct Queue {
    pub order: Vec<usize>,
    pub placed: Vec<bool>,
}

/// A queue without an arrow, for arrows of so many numbers.
pub fn empty(alloc: Global, arrows: usize) -> Result<Queue, AllocError>
    ensures { IfOk result (λ queue. IsEmptyQueue arrows queue.order.items queue.placed.items) }
{
    Ok(Queue {
        order: Vec::new(alloc),
        placed: vec![in alloc; false; arrows]?,
    })
}

/// Takes all arrows out, in steps as many as they are.
pub fn clear(queue: &mut Queue)
    requires { IsQueue
        (length queue.old.placed.items) queue.old.order.items queue.old.placed.items }
    ensures { IsEmptyQueue
        (length queue.old.placed.items) queue.new.order.items queue.new.placed.items }
{
    while let Some(arrow) = queue.order.pop() {
        queue.placed[arrow] = false;
    }
}

/// Adds the arrows at a side that are not there yet.
pub fn push_all(queue: &mut Queue, links: &Links, side: usize) -> Result<(), AllocError>
    requires queue { IsQueue
        (length links.now.ends.items) queue.old.order.items queue.old.placed.items }
    requires side { side < length links.now.first.items }
    ensures { OnOk result (Pushed links.now.ends.items side queue.old.order.items
        queue.new.order.items queue.new.placed.items) }
{
    let mut at = links.first[side];
    while at > 0 {
        let arrow = at - 1;
        if !queue.placed[arrow] {
            queue.placed[arrow] = true;
            queue.order.push(arrow)?;
        }
        at = links.next[arrow];
    }
    Ok(())
}

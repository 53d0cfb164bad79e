ghost use Rattle.std.specs.Prelude.{◌≡◌, ◌<◌, length, EachIndex, IfOk, MatchOption, slice_index, true, false, slice_index_or};
ghost use Rattle.reo_net_base.specs.order.Sorted.{IsSorted};

use crate::order::cycle::least_on_cycle;
use crate::order::links::link;
use crate::order::sort::sort;
use std::alloc::{AllocError, Global};

/// An order of all arrows, or the least arrow on a directed cycle.
#[derive(Drop)]
pub enum Sorted {
    /// The numbers of all arrows, each once, and each behind those that feed it.
    Order(Vec<usize>),
    /// The least number of an arrow on a directed cycle.
    Cycle(usize),
}

/// A place without a flag, where there is one.
fn unplaced(placed: &[bool]) -> Option<usize>
    ensures { MatchOption result
        (EachIndex placed.now (λ j. slice_index_or placed.now j false ≡ true))
        (λ j. (j < length placed.now) × (slice_index_or placed.now j false ≡ false)) }
{
    for arrow in 0..placed.len() {
        if !placed[arrow] {
            return Some(arrow);
        }
    }
    None
}

/// An order of the arrows in which each stands behind all that feed it, or, where there is none,
/// the least arrow on a directed cycle.
///
/// Arrow `j` goes from side `from[j]` to side `to[j]`; sides are numbers below `sides`. Which of
/// several orders is given is left open.
///
/// # Errors
///
/// `AllocError` where there is no memory.
pub fn order_or_cycle(
    alloc: Global,
    from: &[usize],
    to: &[usize],
    sides: usize,
) -> Result<Sorted, AllocError>
    requires arrows { length to.now ≡ length from.now }
    requires from { EachIndex from.now (λ j. slice_index from.now j < sides) }
    requires to { EachIndex to.now (λ j. slice_index to.now j < sides) }
    ensures { IfOk result (IsSorted from.now to.now) }
{
    let outs = link(alloc, from, sides)?;
    let ins = link(alloc, to, sides)?;
    let front = sort(alloc, &outs, &ins)?;
    match unplaced(&front.placed) {
        None => Ok(Sorted::Order(front.order)),
        Some(_) => {
            let back = sort(alloc, &ins, &outs)?;
            match least_on_cycle(alloc, &outs, &ins, &front.placed, &back.placed)? {
                Some(arrow) => Ok(Sorted::Cycle(arrow)),
                // An arrow is left out of the front only where there is a cycle.
                None => unreachable!(),
            }
        }
    }
}

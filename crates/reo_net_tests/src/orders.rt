//! Orders of arrows between numbered sides, and the least arrow on a cycle.
ghost use Rattle.std.specs.Prelude.{◌<◌, ◌↔◌, EachIndex, IsTrue, slice_index};

use crate::checks::{MEMORY, is};
use crate::orders::Want::{Cycle, Order};
use reo_net_base::{Sorted, order_or_cycle};
use std::alloc::Global;
use std::process::Abort;

/// What is to be found.
#[derive(Clone, Copy)]
enum Want {
    /// An order of all arrows that ends like this: all of it where only one is right.
    Order(&'static [usize]),
    /// The least arrow on a cycle.
    Cycle(usize),
}

/// What is told, the sides from which arrows go and to which, how many sides there are, and what is
/// to be found.
const CASES: &[(&str, &[usize], &[usize], usize, Want)] = &[
    ("no arrow", &[], &[], 0, Order(&[])),
    ("one arrow", &[0], &[1], 2, Order(&[0])),
    (
        "a chain, its arrows in no order",
        &[2, 0, 1],
        &[3, 1, 2],
        4,
        Order(&[1, 2, 0]),
    ),
    (
        "two beside each other, and the one that both feed",
        &[1, 0, 0],
        &[2, 1, 1],
        3,
        Order(&[0]),
    ),
    (
        "two ways from side 0 to side 3, and an arrow behind both",
        &[3, 1, 0, 0, 2],
        &[4, 3, 1, 2, 3],
        5,
        Order(&[0]),
    ),
    ("from a side to itself", &[0, 1], &[1, 1], 2, Cycle(1)),
    ("a ring of three sides", &[0, 1, 2], &[1, 2, 0], 3, Cycle(0)),
    ("an arrow into a ring", &[2, 0, 1], &[0, 1, 0], 3, Cycle(1)),
    (
        "an arrow out of a ring",
        &[1, 0, 1],
        &[2, 1, 0],
        3,
        Cycle(1),
    ),
    (
        "an arrow from a ring to a ring",
        &[0, 3, 2, 1, 0],
        &[2, 2, 3, 0, 1],
        4,
        Cycle(1),
    ),
    (
        "two beside each other on a ring, behind one that stands apart",
        &[2, 0, 0, 1],
        &[3, 1, 1, 0],
        4,
        Cycle(1),
    ),
];

fn are_below(numbers: &[usize], sides: usize) -> bool
    ensures { IsTrue result ↔ EachIndex numbers.now (λ j. slice_index numbers.now j < sides) }
{
    numbers.iter().all(|side| *side < sides)
}

fn is_as(found: &Sorted, arrows: usize, want: Want) -> bool {
    match (found, want) {
        (Sorted::Order(order), Order(end)) => order.len() == arrows && order.ends_with(end),
        (Sorted::Cycle(arrow), Cycle(least)) => *arrow == least,
        _ => false,
    }
}

/// Whether the arrows are found like this.
fn is_found(
    rt: &impl Abort,
    alloc: Global,
    from: &[usize],
    to: &[usize],
    sides: usize,
    want: Want,
) -> bool {
    if to.len() != from.len() || !are_below(from, sides) || !are_below(to, sides) {
        rt.panic("no arrows")
    }
    let found = order_or_cycle(alloc, from, to, sides).expect(rt, MEMORY);
    let right = is_as(&found, from.len(), want);
    drop(found);
    right
}

#[test]
fn arrows_are_put_in_order_or_the_least_on_a_cycle_is_found(rt: HostRuntime) {
    for (told, from, to, sides, want) in CASES {
        is(
            &rt,
            is_found(&rt, rt.alloc(), from, to, *sides, *want),
            told,
        );
    }
}

/// The arrows of a long chain.
const LONG: usize = 4000;

/// The sides from which the arrows of a long chain from side 0 to side `LONG` go, or those to which
/// they go, of which this is the first; and behind them those of the arrows of a ring.
fn chain_and_ring(rt: &impl Abort, alloc: Global, first: usize, ring: &[usize]) -> Vec<usize> {
    let mut sides = Vec::new(alloc);
    for side in 0..LONG {
        sides.push(side.wrapping_add(first)).expect(rt, MEMORY);
    }
    for side in ring {
        sides.push(*side).expect(rt, MEMORY);
    }
    sides
}

/// Whether the least arrow on a cycle is found where a ring stands at this side of a long chain.
fn is_found_at(rt: &impl Abort, alloc: Global, at: usize) -> bool {
    let from = chain_and_ring(rt, alloc, 0, &[at, LONG + 1]);
    let to = chain_and_ring(rt, alloc, 1, &[LONG + 1, at]);
    let right = is_found(rt, alloc, &from, &to, LONG + 2, Cycle(LONG));
    drop(from);
    drop(to);
    right
}

#[test]
fn is_quick_at_a_ring_behind_or_before_a_long_chain(rt: HostRuntime) {
    is(
        &rt,
        is_found_at(&rt, rt.alloc(), 0),
        "a ring before a long chain",
    );
    is(
        &rt,
        is_found_at(&rt, rt.alloc(), LONG),
        "a ring behind a long chain",
    );
}

//! Knots of worked circuits, found by hand.
use crate::checks::MEMORY;
use crate::circuits::Look::Knots as Told;
use crate::circuits::{Case, all_are_right};
use crate::shapes::{BETWEEN, DOUBLED};
use reo_kinds::Kind;
use reo_knots::{Knots, find_knots};
use reo_net_circuit::Circuit;
use std::alloc::Global;
use std::process::Abort;

const CASES: &[Case] = &[
    (
        "a channel",
        "w3 t+ sync",
        BETWEEN,
        Told(&[(&[0, 1, 2], &[])]),
    ),
    (
        "a buffer",
        "w3 t+ b2",
        BETWEEN,
        Told(&[(&[0, 2], &[]), (&[1, 3], &[])]),
    ),
    (
        "a drain of both outputs of a replicator",
        "w3 drain r2",
        DOUBLED,
        Told(&[(&[0, 1, 2], &[2])]),
    ),
];

/// Whether the knots have these sides and loop joints, and there are no others.
fn are(knots: &Knots, want: &[(&[usize], &[usize])]) -> bool {
    if knots.count() != want.len() {
        return false;
    }
    for knot in 0..want.len() {
        let (sides, loops) = want[knot];
        if knots.sides(knot) != sides || knots.loop_joints(knot) != loops {
            return false;
        }
    }
    true
}

/// Whether the knots of a circuit have these sides and loop joints, and there are no others.
pub fn has_knots(
    rt: &impl Abort,
    alloc: Global,
    circuit: &Circuit<Kind>,
    want: &[(&[usize], &[usize])],
) -> bool {
    let knots = find_knots(alloc, circuit).expect(rt, MEMORY);
    let right = are(&knots, want);
    drop(knots);
    right
}

#[test]
fn knots_have_their_sides_and_loop_joints(rt: HostRuntime) {
    all_are_right(&rt, rt.alloc(), CASES);
}

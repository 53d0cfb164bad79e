//! Rounds of circuits that keep items, and of mergers that take turns.
use crate::checks::MEMORY;
use crate::circuits::Look::Rounds;
use crate::circuits::{Case, all_are_right};
use crate::shapes::{BETWEEN, CHAINED, Shape};
use reo_kinds::Kind;
use reo_net::plain_first;
use reo_net_base::{Colouring, Move, Offer};
use reo_net_circuit::{Circuit, moves};
use reo_values::Value;
use std::alloc::Global;
use std::process::Abort;

/// What is offered before a round, each the port and the number that is written or `None` for a
/// take; the rows of the first colouring; and what flows, each the port and the number.
pub type Round = (
    &'static [(usize, Option<i64>)],
    &'static [u32],
    &'static [(usize, i64)],
);

/// Places an offer: the number is written, or an item is taken.
fn place(rt: &impl Abort, circuit: &mut Circuit<Kind>, port: usize, number: Option<i64>) {
    let offer = match number {
        Some(number) => Offer::Write(Value::Int(number)),
        None => Offer::Take,
    };
    if port >= circuit.ports() || !circuit.can_place(port, &offer) {
        rt.panic("an offer that cannot be placed")
    }
    circuit.place(port, offer);
}

fn are_moves(found: &[Move], want: &[(usize, i64)]) -> bool {
    if found.len() != want.len() {
        return false;
    }
    for index in 0..found.len() {
        let (port, number) = want[index];
        match &found[index] {
            Move {
                port: at,
                item: Value::Int(item),
            } if *at == port && *item == number => {}
            _ => return false,
        }
    }
    true
}

/// Whether this flows at the ports.
fn flows(
    rt: &impl Abort,
    alloc: Global,
    circuit: &Circuit<Kind>,
    colouring: &Colouring,
    want: &[(usize, i64)],
) -> bool {
    if !circuit.are_rows(colouring.rows.as_slice()) {
        return false;
    }
    let found = moves(alloc, circuit, colouring).expect(rt, MEMORY);
    let right = are_moves(found.as_slice(), want);
    drop(found);
    right
}

/// Goes through a round, and answers whether all is as it tells.
fn goes_on(
    rt: &impl Abort,
    alloc: Global,
    circuit: &mut Circuit<Kind>,
    turn: u64,
    round: &Round,
) -> bool {
    let (offers, rows, want) = *round;
    for (port, number) in offers {
        place(rt, circuit, *port, *number);
    }
    let first = plain_first(alloc, circuit, turn).expect(rt, MEMORY);
    let right = first.rows.as_slice() == rows && flows(rt, alloc, circuit, &first, want);
    circuit.step(first);
    right
}

/// Whether the rounds of a circuit from round 1 on are as they tell.
pub fn all_go_on(
    rt: &impl Abort,
    alloc: Global,
    circuit: &mut Circuit<Kind>,
    rounds: &[Round],
) -> bool {
    let mut turn: u64 = 0;
    for round in rounds {
        turn = turn.wrapping_add(1);
        if !goes_on(rt, alloc, circuit, turn, round) {
            return false;
        }
    }
    true
}

const CASES: &[Case] = &[
    // Rows of the writer, the taker, the mouth and the tail: F R J or G J for each.
    (
        "one item comes in and one goes out in a round",
        "w t b2",
        BETWEEN,
        Rounds(&[
            // an empty buffer gives nothing in the round in which an item comes in
            (&[(0, Some(3)), (1, None)], &[0, 1, 0, 0], &[(0, 3)]),
            (&[(0, Some(4))], &[0, 0, 0, 0], &[(0, 4), (1, 3)]),
            (&[(0, Some(5))], &[0, 0, 0, 1], &[(0, 5)]),
            // a full buffer takes nothing in, not in the round in which an item goes out either
            (&[(0, Some(6)), (1, None)], &[1, 0, 0, 0], &[(1, 4)]),
            (&[(1, None)], &[0, 0, 0, 0], &[(0, 6), (1, 5)]),
            (&[(1, None)], &[0, 0, 1, 0], &[(1, 6)]),
        ]),
    ),
    // Rows of the writer, the taker, the lossy channel, the mouth and the tail.
    (
        "a lossy channel loses what a full buffer keeps out",
        "w t lossy b1",
        CHAINED,
        Rounds(&[
            (&[(0, Some(3))], &[0, 0, 0, 0, 0], &[(0, 3)]),
            (&[(0, Some(4))], &[0, 0, 1, 0, 1], &[(0, 4)]),
            (&[(1, None)], &[0, 0, 2, 0, 0], &[(1, 3)]),
        ]),
    ),
    // A writer and a buffer before a merger, a replicator behind it to a taker and back to the
    // buffer. Rows of the writer, the taker, the merger, the replicator, the mouth and the tail.
    (
        "a cycle through a buffer is a circuit",
        "w t m2 r2 b1",
        Shape {
            ports: 2,
            joints: &[
                [0, 0, 2, 0],
                [2, 2, 3, 0],
                [3, 1, 1, 0],
                [3, 2, 4, 0],
                [4, 1, 2, 1],
            ],
        },
        Rounds(&[(
            &[(0, Some(3)), (1, None)],
            &[0, 0, 0, 0, 0, 0],
            &[(0, 3), (1, 3)],
        )]),
    ),
    // Two writers, a taker, a channel from each writer to a merger, and the merger. Rows in this
    // order.
    (
        "a merger takes from its inputs in turn",
        "w w t sync sync m2",
        Shape {
            ports: 3,
            joints: &[
                [0, 0, 3, 0],
                [1, 0, 4, 0],
                [3, 1, 5, 0],
                [4, 1, 5, 1],
                [5, 2, 2, 0],
            ],
        },
        Rounds(&[
            (
                &[(0, Some(1)), (1, Some(3)), (2, None)],
                &[0, 1, 0, 0, 2, 0],
                &[(0, 1), (2, 1)],
            ),
            (
                &[(0, Some(2)), (2, None)],
                &[1, 0, 0, 2, 0, 1],
                &[(1, 3), (2, 3)],
            ),
            (
                &[(1, Some(4)), (2, None)],
                &[0, 1, 0, 0, 2, 0],
                &[(0, 2), (2, 2)],
            ),
            (&[(2, None)], &[0, 0, 0, 1, 0, 1], &[(1, 4), (2, 4)]),
        ]),
    ),
];

#[test]
fn rounds_go_on_as_worked_out(rt: HostRuntime) {
    all_are_right(&rt, rt.alloc(), CASES);
}

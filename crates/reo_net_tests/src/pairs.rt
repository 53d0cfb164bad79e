//! Knots of forty pairs of ports with two channels each, found by hand.
ghost use Rattle.std.specs.Prelude.{◌<◌};

use crate::checks::{MEMORY, is};
use crate::circuits::made;
use crate::pieces::Piece::{self, Merger, Replicator, Sync, Taker, Writer};
use crate::pieces::kind;
use reo_kinds::Kind;
use reo_knots::{Knots, find_knots};
use reo_net_circuit::Circuit;
use reo_values::List;
use std::alloc::Global;
use std::process::Abort;

/// The ports of all pairs, two each; then two channels for each pair, and then its nodes: what
/// replicates to both channels, and what merges them.
fn piece(number: usize) -> Piece
    requires { number < 240 }
{
    let stand = [
        [Writer(Some(3)), Taker(true)],
        [Sync, Sync],
        [Replicator(2), Merger(2)],
    ];
    stand[number / 80][number % 2]
}

/// The joints of a pair: from the writer through the replicator to the channels, and from these
/// through the merger to the taker.
fn joints_of(pair: usize) -> [[usize; 4]; 6]
    requires { pair < 40 }
{
    let port = 2 * pair;
    let channel = 80 + port;
    let node = 160 + port;
    [
        [port, 0, node, 0],
        [node, 1, channel, 0],
        [node, 2, channel + 1, 0],
        [channel, 1, node + 1, 0],
        [channel + 1, 1, node + 1, 1],
        [node + 1, 2, port + 1, 0],
    ]
}

/// The circuit of all pairs: the first joint of each, then the second of each, and so on.
fn forty(rt: &impl Abort, alloc: Global) -> Circuit<Kind> {
    let mut kinds = List::new(alloc);
    let mut joints = List::new(alloc);
    for number in 0..240 {
        kinds
            .push(kind(rt, alloc, piece(number)))
            .expect(rt, MEMORY);
        joints
            .push(joints_of(number % 40)[number / 40])
            .expect(rt, MEMORY);
    }
    let circuit = made(rt, alloc, kinds, 80, joints.as_slice()).expect(rt, "a circuit");
    drop(joints);
    circuit
}

/// Whether a knot is that of the pair of its number: the two ports, the two channels and the two
/// nodes. The fifth joint of the pair closes its loop: what it joins is linked by the other
/// channel.
fn is_pair(knots: &Knots, pair: usize) -> bool
    requires { pair < 40 }
{
    let port = 2 * pair;
    let sides = [port, port + 1, port + 80, port + 81, port + 160, port + 161];
    pair < knots.count()
        && knots.sides(pair) == sides.as_slice()
        && knots.loop_joints(pair) == [pair + 160].as_slice()
}

/// Whether the knots are those of all pairs.
fn are_pairs(knots: &Knots) -> bool {
    for pair in 0..40 {
        if !is_pair(knots, pair) {
            return false;
        }
    }
    knots.count() == 40
}

#[test]
fn forty_pairs_are_forty_knots(rt: HostRuntime) {
    let circuit = forty(&rt, rt.alloc());
    let knots = find_knots(rt.alloc(), &circuit).expect(&rt, MEMORY);
    drop(circuit);
    is(&rt, are_pairs(&knots), "forty pairs");
    drop(knots);
}

//! One channel, a drain on one port, and many writers: what was found by hand.
use crate::beginnings::Left;
use crate::circuits::Shape::{Channel, Drain, Writers};
use crate::facts::Fact::{self, Arranged, Begun, Narrowed, Only, Supplied, Wide, Within};
use crate::facts::are;
use crate::searches::MOST;
use crate::sets::{ALL, Table, WITHOUT_FLOW};
use reo_joint_values::JointValue::{Flow, GG, GR, Jam, RG};

// Values at the joints of the drain: all, with one at the joint that closes the loop.
const WITH_FLOW: Table = &[ALL, ALL, &[Flow(0)]];

const WITH_RG: Table = &[ALL, ALL, &[RG]];

const WITH_GR: Table = &[ALL, ALL, &[GR]];

const WITH_GG: Table = &[ALL, ALL, &[GG]];

const WITH_JAM: Table = &[ALL, ALL, &[Jam]];

/// The first assignments of the drain with each value at the joint that closes the loop, by the
/// rows of the writer, the drain and the replicator, and whether they jam; and what is left.
const SEARCHED: &[Fact<'static>] = &[
    Supplied(3, 1),
    Only(&[0, 1, 2], &[2]),
    Arranged(0, WITH_FLOW, Some((&[0, 0, 0], false))),
    Arranged(1, WITH_FLOW, Some((&[0, 0, 0], false))),
    Arranged(0, WITH_RG, Some((&[1, 1, 3], false))),
    Arranged(1, WITH_RG, Some((&[1, 1, 3], false))),
    Arranged(0, WITH_GR, Some((&[1, 2, 2], false))),
    Arranged(1, WITH_GR, Some((&[1, 2, 2], false))),
    // both ends of the drain would give a reason, and it requires one at one of them
    Arranged(0, WITH_GG, None),
    Arranged(1, WITH_GG, None),
    Arranged(0, WITH_JAM, Some((&[2, 3, 4], true))),
    Arranged(1, WITH_JAM, Some((&[2, 3, 4], true))),
    Narrowed(WITH_FLOW, Some(&[&[Flow(0)], &[Flow(0)], &[Flow(0)]])),
    Narrowed(WITH_RG, Some(&[&[RG], &[GR], &[RG]])),
    Narrowed(WITH_GR, Some(&[&[RG], &[RG], &[GR]])),
    Narrowed(WITH_GG, None),
    Narrowed(WITH_JAM, Some(&[&[Jam], &[Jam], &[Jam]])),
];

const WHOLE: Left = [[true; 5]; 3];

/// The writer offers an item, so it gives no reason: GR and GG go from its joint. At the others the
/// drain and the replicator have a row for each value, with values that the other joints keep.
const SUPPORTED: Left = [[true, false, false, true, true], [true; 5], [true; 5]];

/// Flow alone at the joint that closes the loop.
const HELD: Left = [[true; 5], [true; 5], [false, false, false, false, true]];

/// With flow at the joint that closes the loop there is flow everywhere.
const FLOWING: Left = [[false, false, false, false, true]; 3];

const BEGUN: &[Fact<'static>] = &[
    Begun(None, &[WHOLE, SUPPORTED, WHOLE, SUPPORTED]),
    Begun(Some(WITH_FLOW), &[HELD, FLOWING, WHOLE, SUPPORTED]),
];

/// At the joint that closes the loop all five values are supported: RG, GR, GG, the jam, and the
/// flow of 1. The first assignment has flow everywhere: classes come first, and row 0 has the least
/// class of each.
const OFFERING: &[Fact<'static>] = &[
    Within(4, 5, &[0, 0, 0]),
    Within(5, 5, &[0, 0, 0]),
    Within(MOST, 5, &[0, 0, 0]),
];

/// With nothing offered no item can stand. The writer gives a reason or jams, so RG goes from its
/// joint. At the joint that closes the loop all four values without flow are supported: by the rows
/// 3 of the replicator and 1 of the drain RG, by 1 and 2 GR, by 1 and 1 GG, by 4 and 3 the jam.
///
/// Of the first assignment classes come first: the writer's row 0 has its least; then by the
/// writer's mark nothing flows or jams, so that the drain and the replicator have class 1 each, by
/// the rows 1 and 2 of the drain and 1 to 3 of the replicator. Then come rows. The drain's row 1
/// requires a reason at its first end and gives one at the second. With it goes the replicator's
/// row 1, which requires the writer's reason and gives one at both outputs.
const RESTING: &[Fact<'static>] = &[
    Within(3, 4, &[0, 1, 1]),
    Within(4, 4, &[0, 1, 1]),
    Within(MOST, 4, &[0, 1, 1]),
];

// All values at both joints of the channel, those with flow only where an item can stand there.
const CHANNEL_FLOWS: Table = &[ALL, ALL];

const CHANNEL_RESTS: Table = &[WITHOUT_FLOW, WITHOUT_FLOW];

/// Whether 1 is offered to the channel, whether it can be taken, and what is found, with the rows
/// of the writer, the taker and the channel: F R J or G J for a port, FF RG GR JJ for the channel.
/// No joint closes a loop, so the channel weighs 1.
const CHANNELS: &[(bool, bool, &'static [Fact<'static>])] = &[
    (
        true,
        true,
        &[
            Supplied(2, 1),
            Arranged(1, CHANNEL_FLOWS, Some((&[0, 0, 0], false))),
            Within(0, 1, &[0, 0, 0]),
            Within(1, 1, &[0, 0, 0]),
            Within(MOST, 1, &[0, 0, 0]),
        ],
    ),
    (
        true,
        false,
        &[
            Supplied(2, 1),
            Arranged(1, CHANNEL_FLOWS, Some((&[1, 0, 2], false))),
            Within(0, 1, &[1, 0, 2]),
            Within(1, 1, &[1, 0, 2]),
            Within(MOST, 1, &[1, 0, 2]),
        ],
    ),
    (
        false,
        true,
        &[
            Supplied(2, 0),
            Arranged(1, CHANNEL_RESTS, Some((&[0, 1, 1], false))),
            Within(0, 1, &[0, 1, 1]),
            Within(1, 1, &[0, 1, 1]),
            Within(MOST, 1, &[0, 1, 1]),
        ],
    ),
    (
        false,
        false,
        &[
            Supplied(2, 0),
            Arranged(1, CHANNEL_RESTS, Some((&[0, 0, 1], false))),
            Within(0, 1, &[0, 0, 1]),
            Within(1, 1, &[0, 0, 1]),
            Within(MOST, 1, &[0, 0, 1]),
        ],
    ),
];

/// The rows of 256 writers, the taker and the merger. In round 1 the merger begins with its first
/// input, which flows by its row 0. So do the first writer and the taker by theirs. Each other
/// writer requires a reason, by its row 1, and the merger gives it.
fn rows_of_writers() -> [u32; 258] {
    let mut rows = [1; 258];
    rows[0] = 0;
    rows[256] = 0;
    rows[257] = 0;
    rows
}

#[test]
fn a_drain_on_one_port_is_searched(rt: HostRuntime) {
    are(&rt, rt.alloc(), Drain(true), SEARCHED);
}

#[test]
fn a_search_of_the_drain_begins_and_begins_anew(rt: HostRuntime) {
    are(&rt, rt.alloc(), Drain(true), BEGUN);
}

#[test]
fn a_drain_weighs_five_where_an_item_is_offered(rt: HostRuntime) {
    are(&rt, rt.alloc(), Drain(true), OFFERING);
}

#[test]
fn a_drain_weighs_four_where_nothing_is_offered(rt: HostRuntime) {
    are(&rt, rt.alloc(), Drain(false), RESTING);
}

#[test]
fn one_channel_is_searched(rt: HostRuntime) {
    for (offers, pending, facts) in CHANNELS {
        are(&rt, rt.alloc(), Channel(*offers, *pending), facts);
    }
}

// No joint closes a loop, so the knot weighs 1, the product of no numbers.
#[test]
fn the_first_of_256_writers_flows(rt: HostRuntime) {
    let rows = rows_of_writers();
    let facts = [
        Within(0, 1, &rows),
        Within(1, 1, &rows),
        Within(MOST, 1, &rows),
    ];
    are(&rt, rt.alloc(), Writers(256), &facts);
}

#[test]
fn a_knot_of_257_writers_is_wide(rt: HostRuntime) {
    are(
        &rt,
        rt.alloc(),
        Writers(257),
        &[Wide(0), Wide(1), Wide(MOST)],
    )
}

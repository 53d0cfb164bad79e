//! All row lists of one channel and of two, and which of them suit the joints.
use crate::circuits::Look::{Lists, Pairs};
use crate::circuits::{Case, all_are_right};
use crate::shapes::{BETWEEN, TWO};
use reo_kinds::Kind;
use reo_net_base::{End, Mark, Primitive, marks_match};
use reo_net_circuit::Circuit;

/// Rows of the writer, the taker and the channel. Ports have F R J or G J, the channel has FF RG GR
/// JJ.
pub type Rows = [usize; 3];

/// The row lists that suit where both offer.
const BOTH: &[Rows] = &[[0, 0, 0], [2, 2, 3]];

/// Those where an item is offered.
const WRITE: &[Rows] = &[[1, 0, 2], [2, 1, 3]];

/// Those where an item can be taken.
const TAKE: &[Rows] = &[[0, 1, 1], [1, 2, 3]];

/// Those where neither offers.
const NONE: &[Rows] = &[[0, 0, 1], [0, 0, 2], [1, 1, 3]];

const CASES: &[Case] = &[
    ("one channel", "w3 t+ sync", BETWEEN, Lists(36, BOTH)),
    ("one channel", "w3 t sync", BETWEEN, Lists(24, WRITE)),
    ("one channel", "w t+ sync", BETWEEN, Lists(24, TAKE)),
    ("one channel", "w t sync", BETWEEN, Lists(16, NONE)),
    (
        "two channels",
        "w3 t+ w3 t+ sync sync",
        TWO,
        Pairs(BOTH, BOTH),
    ),
    (
        "two channels",
        "w3 t+ w3 t sync sync",
        TWO,
        Pairs(BOTH, WRITE),
    ),
    (
        "two channels",
        "w3 t+ w t+ sync sync",
        TWO,
        Pairs(BOTH, TAKE),
    ),
    (
        "two channels",
        "w3 t+ w t sync sync",
        TWO,
        Pairs(BOTH, NONE),
    ),
    (
        "two channels",
        "w3 t w3 t+ sync sync",
        TWO,
        Pairs(WRITE, BOTH),
    ),
    (
        "two channels",
        "w3 t w3 t sync sync",
        TWO,
        Pairs(WRITE, WRITE),
    ),
    (
        "two channels",
        "w3 t w t+ sync sync",
        TWO,
        Pairs(WRITE, TAKE),
    ),
    (
        "two channels",
        "w3 t w t sync sync",
        TWO,
        Pairs(WRITE, NONE),
    ),
    (
        "two channels",
        "w t+ w3 t+ sync sync",
        TWO,
        Pairs(TAKE, BOTH),
    ),
    (
        "two channels",
        "w t+ w3 t sync sync",
        TWO,
        Pairs(TAKE, WRITE),
    ),
    (
        "two channels",
        "w t+ w t+ sync sync",
        TWO,
        Pairs(TAKE, TAKE),
    ),
    ("two channels", "w t+ w t sync sync", TWO, Pairs(TAKE, NONE)),
    (
        "two channels",
        "w t w3 t+ sync sync",
        TWO,
        Pairs(NONE, BOTH),
    ),
    (
        "two channels",
        "w t w3 t sync sync",
        TWO,
        Pairs(NONE, WRITE),
    ),
    ("two channels", "w t w t+ sync sync", TWO, Pairs(NONE, TAKE)),
    ("two channels", "w t w t sync sync", TWO, Pairs(NONE, NONE)),
];

/// The mark of an end on the first side of its primitive, if there is such an end and such a row.
fn mark_at(kinds: &[Kind], rows: &[usize], end: End) -> Option<Mark> {
    match (kinds.get(end.primitive), rows.get(end.primitive)) {
        (Some(kind), Some(row))
            if 0 < kind.sides()
                && *row < kind.rows(0)
                && end.end < kind.ends()
                && kind.side_of(end.end) == 0 => { Some(kind.mark(0, *row, end.end)) }
        _ => None,
    }
}

/// Whether the rows of all primitives suit the joints.
fn suit(circuit: &Circuit<Kind>, rows: &[usize]) -> bool {
    for joint in circuit.joints() {
        let giver = mark_at(circuit.primitives(), rows, joint.giver);
        match (giver, mark_at(circuit.primitives(), rows, joint.taker)) {
            (Some(giver), Some(taker)) if marks_match(giver, taker) => {}
            _ => return false,
        }
    }
    true
}

/// The row list of one channel with this number, of 36.
fn row_list(number: usize) -> Rows {
    [number / 12, number / 4 % 3, number % 4]
}

/// Whether so many of the 36 are row lists of one channel.
fn are_lists(kinds: &[Kind], count: u32) -> bool {
    let mut left = count;
    for number in 0..36 {
        let rows = row_list(number);
        let writer = mark_at(
            kinds,
            &rows,
            End {
                primitive: 0,
                end: 0,
            },
        );
        let taker = mark_at(
            kinds,
            &rows,
            End {
                primitive: 1,
                end: 0,
            },
        );
        if writer.is_some() && taker.is_some() {
            left = left.wrapping_sub(1);
        }
    }
    left == 0
}

/// Whether one channel has so many row lists, of which those that are listed suit its joints, and
/// no others.
pub fn just_listed_suit(circuit: &Circuit<Kind>, count: u32, list: &[Rows]) -> bool {
    for number in 0..36 {
        let rows = row_list(number);
        if suit(circuit, &rows) != list.contains(&rows) {
            return false;
        }
    }
    are_lists(circuit.primitives(), count)
}

/// Whether the row lists of two channels suit their joints just where that of each channel is
/// listed.
pub fn just_pairs_suit(circuit: &Circuit<Kind>, first: &[Rows], second: &[Rows]) -> bool {
    for number in 0..36 * 36 {
        let [w, t, s] = row_list(number / 36);
        let [x, u, z] = row_list(number % 36);
        let listed = first.contains(&[w, t, s]) && second.contains(&[x, u, z]);
        if suit(circuit, &[w, t, x, u, s, z]) != listed {
            return false;
        }
    }
    true
}

#[test]
fn the_row_lists_of_one_channel_and_of_two(rt: HostRuntime) {
    all_are_right(&rt, rt.alloc(), CASES);
}

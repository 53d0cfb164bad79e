//! The first colourings of worked circuits, found by hand.
use crate::checks::{MEMORY, is};
use crate::circuits::Look::First;
use crate::circuits::is_right;
use crate::shapes::{
    BEFORE, BEHIND, BETWEEN, CHAINED, COPIED, DOUBLED, DRAINED, JAMMED, MERGED, MERGED3, ROUTED,
    ROUTER, Shape, TWO,
};
use crate::texts::{Wanted, all_of, digit, is_found, write};
use reo_kinds::Kind;
use reo_net::{fill, plain_first};
use reo_net_base::Colouring;
use reo_net_circuit::Circuit;
use reo_values::Value;
use std::alloc::Global;
use std::process::Abort;

/// The number of a round, a shape, and lines. A line has the pieces, the rows of the first
/// colouring, and in some lines the items that these determine. Rows are those of a port F R J, or
/// G J where it has no offer; of channels FF RG GR JJ, lossy FF FR RG JJ, asynchronous drain FG GF
/// RR JJ, filter FF FG RG GR JJ; of a node a row for each input or one for all outputs, and then
/// those without flow.
const FIRSTS: &[(u64, Shape, &[&str])] = &[
    // one channel flows where both offer; without, the one that has no offer gives the reason;
    // where neither has, both rows without flow are colourings of equal classes, and the lesser row
    // decides
    (
        1,
        BETWEEN,
        &[
            "w3 t+ sync | 0 0 0 | 3 3",
            "w3 t sync | 1 0 2 | - -",
            "w t+ sync | 0 1 1 | - -",
            "w t sync | 0 0 1 | - -",
        ],
    ),
    // two channels are two parts
    (
        1,
        TWO,
        &[
            "w3 t+ w3 t+ sync sync | 0 0 0 0 0 0",
            "w3 t+ w3 t sync sync | 0 0 1 0 0 2",
            "w3 t+ w t+ sync sync | 0 0 0 1 0 1",
            "w3 t+ w t sync sync | 0 0 0 0 0 1",
            "w3 t w3 t+ sync sync | 1 0 0 0 2 0",
            "w3 t w3 t sync sync | 1 0 1 0 2 2",
            "w3 t w t+ sync sync | 1 0 0 1 2 1",
            "w3 t w t sync sync | 1 0 0 0 2 1",
            "w t+ w3 t+ sync sync | 0 1 0 0 1 0",
            "w t+ w3 t sync sync | 0 1 1 0 1 2",
            "w t+ w t+ sync sync | 0 1 0 1 1 1",
            "w t+ w t sync sync | 0 1 0 0 1 1",
            "w t w3 t+ sync sync | 0 0 0 0 1 0",
            "w t w3 t sync sync | 0 0 1 0 1 2",
            "w t w t+ sync sync | 0 0 0 1 1 1",
            "w t w t sync sync | 0 0 0 0 1 1",
        ],
    ),
    // a lossy channel loses where nothing is taken
    (
        1,
        BETWEEN,
        &[
            "w3 t+ lossy | 0 0 0",
            "w3 t lossy | 0 0 1",
            "w t+ lossy | 0 1 2",
            "w t lossy | 0 0 2",
        ],
    ),
    // but keeps the item where a channel behind it could take it on
    (
        1,
        CHAINED,
        &[
            "w3 t+ lossy sync | 0 0 0 0",
            "w3 t lossy sync | 0 0 1 2",
            "w t+ lossy sync | 0 1 2 1",
            "w t lossy sync | 0 0 2 1",
        ],
    ),
    // a drain takes from both or neither
    (
        1,
        DRAINED,
        &[
            "w3 w3 drain | 0 0 0",
            "w3 w drain | 1 0 2",
            "w w3 drain | 0 1 1",
            "w w drain | 0 0 1",
            // an asynchronous drain takes from one, the first where both offer
            "w3 w3 adrain | 0 1 0",
            "w3 w adrain | 0 0 0",
            "w w3 adrain | 0 0 1",
            "w w adrain | 0 0 2",
        ],
    ),
    // what an asynchronous drain joins cannot flow together, and without flow neither of its ends
    // gives the writer the reason that it requires: a jam
    (
        1,
        DOUBLED,
        &[
            "w3 drain r2 | 0 0 0",
            "w3 adrain r2 | 2 3 4",
            "w drain r2 | 0 1 1",
            "w adrain r2 | 0 2 1",
        ],
    ),
    // a merger takes from the first that offers
    (
        1,
        MERGED,
        &[
            "w3 w3 t+ m2 | 0 1 0 0",
            "w3 w3 t m2 | 1 1 0 2",
            "w3 w t+ m2 | 0 0 0 0",
            "w3 w t m2 | 1 0 0 2",
            "w w3 t+ m2 | 0 0 0 1",
            "w w3 t m2 | 0 1 0 2",
            "w w t+ m2 | 0 0 1 3",
            "w w t m2 | 0 0 0 2",
        ],
    ),
    (
        1,
        MERGED3,
        &[
            "w3 w3 w3 t+ m3 | 0 1 1 0 0",
            "w w3 w3 t+ m3 | 0 0 1 0 1",
            "w w w3 t+ m3 | 0 0 0 0 2",
        ],
    ),
    // each of three inputs has its turn
    (2, MERGED3, &["w3 w3 w3 t+ m3 | 1 0 1 0 1"]),
    (3, MERGED3, &["w3 w3 w3 t+ m3 | 1 1 0 0 2"]),
    (4, MERGED3, &["w3 w3 w3 t+ m3 | 0 1 1 0 0"]),
    // of two mergers in a row, the one that stands first among the primitives decides first: where
    // it stands before the other, and where it stands behind it
    (1, BEFORE, &["w3 w3 w3 t+ m2 m2 | 0 1 1 0 0 0"]),
    (1, BEHIND, &["w3 w3 w3 t+ m2 m2 | 0 1 1 0 0 0"]),
    (2, BEFORE, &["w3 w3 w3 t+ m2 m2 | 1 0 1 0 1 0"]),
    (2, BEHIND, &["w3 w3 w3 t+ m2 m2 | 1 1 0 0 1 2"]),
    (3, BEFORE, &["w3 w3 w3 t+ m2 m2 | 0 1 1 0 0 0"]),
    (3, BEHIND, &["w3 w3 w3 t+ m2 m2 | 0 1 1 0 0 0"]),
    (4, BEFORE, &["w3 w3 w3 t+ m2 m2 | 1 0 1 0 1 0"]),
    (4, BEHIND, &["w3 w3 w3 t+ m2 m2 | 1 1 0 0 1 2"]),
    // a replicator gives to all or none
    (
        1,
        COPIED,
        &[
            "w3 t+ t+ r2 | 0 0 0 0",
            "w3 t+ t r2 | 1 1 0 3",
            "w3 t t+ r2 | 1 0 1 2",
            "w3 t t r2 | 1 0 0 2",
            "w t+ t+ r2 | 0 1 1 1",
            "w t+ t r2 | 0 1 0 1",
            "w t t+ r2 | 0 0 1 1",
            "w t t r2 | 0 0 0 1",
        ],
    ),
    // a filter loses what its expression is false of, but not what can pass
    (
        1,
        BETWEEN,
        &[
            "w6 t+ above | 0 0 0",
            "w6 t above | 1 0 3",
            "w5 t+ above | 0 1 1",
            "w5 t above | 0 0 1",
            "w t+ above | 0 1 2",
            "w t above | 0 0 2",
        ],
    ),
    // two filters send each item one way
    (
        1,
        ROUTED,
        &[
            "w6 t+ t+ above rest r2 | 0 0 1 0 1 0",
            "w6 t+ t above rest r2 | 0 0 0 0 1 0",
            "w6 t t+ above rest r2 | 1 0 1 3 2 2",
            "w6 t t above rest r2 | 1 0 0 2 3 3",
            "w5 t+ t+ above rest r2 | 0 1 0 1 0 0",
            "w5 t+ t above rest r2 | 1 1 0 2 3 3",
            "w5 t t+ above rest r2 | 0 0 0 1 0 0",
            "w5 t t above rest r2 | 1 0 0 2 3 3",
            "w t+ t+ above rest r2 | 0 1 1 2 2 1",
            "w t+ t above rest r2 | 0 1 0 2 2 1",
            "w t t+ above rest r2 | 0 0 1 2 2 1",
            "w t t above rest r2 | 0 0 0 2 2 1",
        ],
    ),
    // a map gives the value of its expression
    (
        1,
        BETWEEN,
        &[
            "w9 t+ map | 0 0 0 | 9 19",
            "w0 t+ map | 0 0 0 | 0 1",
            "w9 t map | 1 0 2 | - -",
            "w t+ map | 0 1 1 | - -",
            "w t map | 0 0 1 | - -",
        ],
    ),
    // a filter behind a map loses what is outside its type: the map makes 5, 9 and 19 of 2, 4 and 9
    (
        1,
        CHAINED,
        &[
            "w2 t+ map above | 0 1 0 1",
            "w4 t+ map above | 0 0 0 0",
            "w9 t+ map above | 0 1 0 1",
        ],
    ),
    // a jam stays in its part: all outputs of the replicator flow, and one input of the merger;
    // beside it one channel
    (
        1,
        JAMMED,
        &[
            "w3 t+ w3 t+ sync sync sync r2 m2 | 2 2 0 0 3 3 0 4 4",
            "w3 t+ w3 t sync sync sync r2 m2 | 2 2 1 0 3 3 2 4 4",
            "w3 t+ w t+ sync sync sync r2 m2 | 2 2 0 1 3 3 1 4 4",
            "w3 t+ w t sync sync sync r2 m2 | 2 2 0 0 3 3 1 4 4",
            "w3 t w3 t+ sync sync sync r2 m2 | 1 0 0 0 1 2 0 3 2",
            "w3 t w3 t sync sync sync r2 m2 | 1 0 1 0 1 2 2 3 2",
            "w3 t w t+ sync sync sync r2 m2 | 1 0 0 1 1 2 1 3 2",
            "w3 t w t sync sync sync r2 m2 | 1 0 0 0 1 2 1 3 2",
            "w t+ w3 t+ sync sync sync r2 m2 | 0 1 0 0 1 1 0 1 3",
            "w t+ w3 t sync sync sync r2 m2 | 0 1 1 0 1 1 2 1 3",
            "w t+ w t+ sync sync sync r2 m2 | 0 1 0 1 1 1 1 1 3",
            "w t+ w t sync sync sync r2 m2 | 0 1 0 0 1 1 1 1 3",
            "w t w3 t+ sync sync sync r2 m2 | 0 0 0 0 1 1 0 1 2",
            "w t w3 t sync sync sync r2 m2 | 0 0 1 0 1 1 2 1 2",
            "w t w t+ sync sync sync r2 m2 | 0 0 0 1 1 1 1 1 2",
            "w t w t sync sync sync r2 m2 | 0 0 0 0 1 1 1 1 2",
        ],
    ),
    // an exclusive router takes one way
    (
        1,
        ROUTER,
        &[
            "w3 t+ t+ lossy lossy sync sync sync sync drain r3 r2 r2 m2 \
            | 0 0 1 0 1 0 0 1 2 0 0 0 3 0",
        ],
    ),
];

/// An item from 0 to 99 is found next, or `-` for none.
fn write_item(wanted: &mut Wanted, item: &Option<Value>) {
    match item {
        Some(Value::Int(number)) => {
            let number = usize::try_from(*number).unwrap_or(100);
            if number > 9 {
                write(wanted, digit(number / 10));
            }
            write(wanted, digit(number % 10));
        }
        _ => write(wanted, b'-'),
    }
}

/// Whether a colouring has these rows, and, where they are told, these items.
fn is_as(found: &Colouring, want: &str) -> bool {
    let mut wanted = all_of(want);
    for row in found.rows.as_slice() {
        write(&mut wanted, b' ');
        write(&mut wanted, digit(*row as usize));
    }
    if want.contains('|') {
        write(&mut wanted, b' ');
        write(&mut wanted, b'|');
        for item in found.items.as_slice() {
            write(&mut wanted, b' ');
            write_item(&mut wanted, item);
        }
    }
    is_found(&wanted)
}

/// Whether the first colouring in the round of this number, with the items that its rows determine,
/// is this.
pub fn has_first(
    rt: &impl Abort,
    alloc: Global,
    circuit: &Circuit<Kind>,
    turn: u64,
    want: &str,
) -> bool {
    let first = plain_first(alloc, circuit, turn).expect(rt, MEMORY);
    let found = fill(alloc, circuit, first.rows).expect(rt, MEMORY);
    let right = is_as(&found, want);
    drop(found);
    right
}

/// Whether the circuit of a line has its first colouring.
fn is_told(rt: &impl Abort, alloc: Global, turn: u64, shape: Shape, line: &'static str) -> bool {
    let (words, want) = line.split_once(" |").expect(rt, line);
    is_right(rt, alloc, words, shape, First(turn, want))
}

#[test]
fn worked_circuits_have_their_first_colourings(rt: HostRuntime) {
    for (turn, shape, lines) in FIRSTS {
        for line in *lines {
            is(&rt, is_told(&rt, rt.alloc(), *turn, *shape, line), line);
        }
    }
}

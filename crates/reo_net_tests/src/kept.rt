//! What buffers, shift buffers, variables and quotas keep from round to round.
use crate::checks::is;
use crate::kept::Look::Rounds;
use crate::pieces::Piece::{self, Quota, Shift, Store, Variable};
use crate::pieces::{item, kind};
use crate::tables::{has_groups, has_table};
use reo_kinds::Kind;
use reo_net_base::{Chosen, Mark, Primitive};
use reo_values::Value;
use std::alloc::Global;
use std::process::Abort;

/// A round: the rows of the sides, the item that comes in at the mouth, the table after it, and
/// what the tail gives from then on.
pub type Round = (usize, usize, Option<i64>, &'static str, Option<i64>);

/// What a case tells of a piece.
#[derive(Clone, Copy)]
pub enum Look {
    /// Its table in the round of this number.
    Table(u64),
    /// Its groups, and whether it leads.
    Groups,
    /// Rounds one after the other.
    Rounds(&'static [Round]),
}

/// What is told, which is the text of a table or of groups; a piece, and what it tells of it.
pub type Case = (&'static str, Piece, Look);

const EMPTY: &str = "F:0/0- R:1/1- J:2/2- |G:0/0- J:1/1- |";

const SOME: &str = "F:0/0- R:1/1- J:2/2- |F<-:0/0- R:1/1- J:2/2- |";

const FULL: &str = "G:0/0- J:1/1- |F<-:0/0- R:1/1- J:2/2- |";

const TOGETHER: &str = "FF<0:0/0- RG:1/1- GR:1/2- JJ:2/3- |";

const SPENT: &str = "GG:0/0- JJ:1/1- |";

const CASES: &[Case] = &[
    (
        "in, in and out, out, out",
        Store(2, &[]),
        Rounds(&[
            (0, 0, Some(5), SOME, Some(5)),
            (0, 0, Some(6), SOME, Some(6)),
            (1, 1, None, SOME, Some(6)),
            (1, 0, None, EMPTY, None),
        ]),
    ),
    (
        "in until it is full, then out in the same order",
        Store(2, &[4]),
        Rounds(&[
            (0, 1, Some(5), FULL, Some(4)),
            (0, 1, None, FULL, Some(4)),
            (0, 0, None, SOME, Some(5)),
            (1, 0, None, EMPTY, None),
        ]),
    ),
    (
        "size one: in, out, in",
        Store(1, &[]),
        Rounds(&[
            (0, 0, Some(5), FULL, Some(5)),
            (0, 0, None, EMPTY, None),
            (0, 0, Some(6), FULL, Some(6)),
        ]),
    ),
    (
        "a full shift buffer loses its front for an item that comes in",
        Shift(2, &[4, 5]),
        Rounds(&[
            (0, 1, Some(6), SOME, Some(5)),
            (1, 0, None, SOME, Some(6)),
            (1, 0, None, EMPTY, None),
        ]),
    ),
    (
        "but keeps it where the tail flows",
        Shift(2, &[4, 5]),
        Rounds(&[
            (0, 0, Some(6), SOME, Some(5)),
            (0, 1, Some(7), SOME, Some(6)),
            (1, 1, None, SOME, Some(6)),
        ]),
    ),
    (
        "a variable keeps what it gives, and holds what comes in",
        Variable(None),
        Rounds(&[
            (0, 0, Some(7), SOME, Some(7)),
            (1, 0, None, SOME, Some(7)),
            (0, 0, Some(1), SOME, Some(1)),
            (0, 1, Some(2), SOME, Some(2)),
        ]),
    ),
    (
        "a quota lets so many through",
        Quota(2),
        Rounds(&[
            (1, 0, None, TOGETHER, None),
            (0, 0, None, TOGETHER, None),
            (2, 0, None, TOGETHER, None),
            (0, 0, None, SPENT, None),
            (0, 0, None, SPENT, None),
        ]),
    ),
    (
        "a quota of none lets nothing through",
        Quota(0),
        Rounds(&[(0, 0, None, SPENT, None)]),
    ),
];

/// Whether there is a tail that flows and gives this number.
fn gives_number(kind: &Kind, number: i64) -> bool {
    kind.sides() == 2
        && kind.ends() == 2
        && kind.side_of(1) == 1
        && !kind.takes_in(1)
        && 0 < kind.rows(1)
        && kind.mark(1, 0, 1) == Mark::F
        && kind.agrees(1, 0, 1, None, &Value::Int(number))
}

/// Whether the tail gives this number and no other of the small numbers, or none of them.
fn gives(kind: &Kind, want: Option<i64>) -> bool {
    for number in 0..10 {
        if gives_number(kind, number) != (want == Some(number)) {
            return false;
        }
    }
    true
}

/// Goes through rounds, and says whether all is as they tell.
fn all_go_on(kind: &mut Kind, rounds: &[Round]) -> bool {
    for (first, second, number, table, front) in rounds {
        let rows = Chosen {
            first: *first,
            second: *second,
        };
        kind.settle(rows, item(*number));
        if !has_table(kind, 1, table) || !gives(kind, *front) {
            return false;
        }
    }
    true
}

fn looks_right(kind: &mut Kind, told: &str, look: Look) -> bool {
    match look {
        Look::Table(turn) => has_table(kind, turn, told),
        Look::Groups => has_groups(kind, told),
        Look::Rounds(rounds) => all_go_on(kind, rounds),
    }
}

/// The test stops at a case that does not tell what is so.
pub fn all_are_right(rt: &impl Abort, alloc: Global, cases: &[Case]) {
    for (told, piece, look) in cases {
        let mut kind = kind(rt, alloc, *piece);
        let right = looks_right(&mut kind, told, *look);
        drop(kind);
        is(rt, right, told);
    }
}

#[test]
fn what_is_kept_goes_from_round_to_round(rt: HostRuntime) {
    all_are_right(&rt, rt.alloc(), CASES);
}

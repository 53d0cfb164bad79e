//! The tables of the kinds, row by row and state by state.
use crate::kept::Look::{Groups, Table};
use crate::kept::{Case, all_are_right};
use crate::pieces::Piece::{
    AsyncDrain, Lossy, Merger, Quota, Replicator, Shift, Store, Sync, SyncDrain, Taker, Variable,
    Writer,
};
use crate::pieces::{ABOVE, TWICE_AND_ONE};
use crate::texts::{all_of, digit, digit_or_none, is_found, letter, write};
use reo_kinds::Kind;
use reo_net_base::{Mark, Primitive};

/// The rows of the sides of a piece, with `|` behind each side, and the number of the round. A row
/// is the marks of its ends, each with `<` behind it and the end whose item decides or `-` where
/// the end gives with flow; and behind `:` its class, `/`, its group, and the end at which it is
/// not as its group or `-`.
///
/// Of a list of groups, what each group of the rows of side 0 says, and then whether the side
/// leads.
const CASES: &[Case] = &[
    ("F<-:0/0- R:1/1- J:2/2- |", Writer(Some(3)), Table(1)),
    ("G:0/0- J:1/1- |", Writer(None), Table(1)),
    ("G:0/0- J:1/1- |", Writer(Some(10)), Table(1)),
    ("F:0/0- R:1/1- J:2/2- |", Taker(true), Table(1)),
    ("G:0/0- J:1/1- |", Taker(false), Table(1)),
    ("FF<0:0/0- RG:1/1- GR:1/2- JJ:2/3- |", Sync, Table(1)),
    ("FF<0:0/0- FR:1/1- RG:2/2- JJ:3/3- |", Lossy, Table(1)),
    ("FF:0/0- RG:1/1- GR:1/2- JJ:2/3- |", SyncDrain, Table(1)),
    ("FG:0/0- GF:1/1- RR:2/2- JJ:3/3- |", AsyncDrain, Table(1)),
    (
        "FF<0:0/0- FG:1/1- RG:2/2- GR:2/3- JJ:3/4- |",
        ABOVE,
        Table(1),
    ),
    (
        "FF<0:0/0- RG:1/1- GR:1/2- JJ:2/3- |",
        TWICE_AND_ONE,
        Table(1),
    ),
    ("FF<0:0/0- RG:1/1- GR:1/2- JJ:2/3- |", Quota(2), Table(1)),
    ("FF<0:0/0- RG:1/1- GR:1/2- JJ:2/3- |", Quota(1), Table(1)),
    ("GG:0/0- JJ:1/1- |", Quota(0), Table(1)),
    (
        "F:0/0- R:1/1- J:2/2- |G:0/0- J:1/1- |",
        Store(2, &[]),
        Table(1),
    ),
    (
        "F:0/0- R:1/1- J:2/2- |F<-:0/0- R:1/1- J:2/2- |",
        Store(2, &[5]),
        Table(1),
    ),
    (
        "G:0/0- J:1/1- |F<-:0/0- R:1/1- J:2/2- |",
        Store(2, &[5, 6]),
        Table(1),
    ),
    (
        "F:0/0- R:1/1- J:2/2- |G:0/0- J:1/1- |",
        Shift(2, &[]),
        Table(1),
    ),
    (
        "F:0/0- R:1/1- J:2/2- |F<-:0/0- R:1/1- J:2/2- |",
        Shift(2, &[5, 6]),
        Table(1),
    ),
    (
        "F:0/0- R:1/1- J:2/2- |G:0/0- J:1/1- |",
        Variable(None),
        Table(1),
    ),
    (
        "F:0/0- R:1/1- J:2/2- |F<-:0/0- R:1/1- J:2/2- |",
        Variable(Some(7)),
        Table(1),
    ),
    (
        "FGF<0:0/00 GFF<1:1/01 GGR:2/1- RRG:2/2- JJJ:3/3- |",
        Merger(2),
        Table(1),
    ),
    (
        "FGF<0:1/00 GFF<1:0/01 GGR:2/1- RRG:2/2- JJJ:3/3- |",
        Merger(2),
        Table(2),
    ),
    (
        "FGGF<0:0/00 GFGF<1:1/01 GGFF<2:2/02 GGGR:3/1- RRRG:3/2- JJJJ:4/3- |",
        Merger(3),
        Table(1),
    ),
    (
        "FGGF<0:2/00 GFGF<1:0/01 GGFF<2:1/02 GGGR:3/1- RRRG:3/2- JJJJ:4/3- |",
        Merger(3),
        Table(2),
    ),
    (
        "FGGF<0:1/00 GFGF<1:2/01 GGFF<2:0/02 GGGR:3/1- RRRG:3/2- JJJJ:4/3- |",
        Merger(3),
        Table(3),
    ),
    (
        "FGGF<0:0/00 GFGF<1:1/01 GGFF<2:2/02 GGGR:3/1- RRRG:3/2- JJJJ:4/3- |",
        Merger(3),
        Table(4),
    ),
    (
        "FF<0F<0F<0:0/0- RGGG:1/1- GRGG:1/21 GGRG:1/22 GGGR:1/23 JJJJ:2/3- |",
        Replicator(3),
        Table(1),
    ),
    ("FF RG GR JJ -", Sync, Groups),
    ("GGF GGR RRG JJJ L", Merger(2), Groups),
    ("GGGF GGGR RRRG JJJJ L", Merger(3), Groups),
    ("FFF RGG GGG JJJ -", Replicator(2), Groups),
    ("F R J -", Store(1, &[]), Groups),
];

/// Whether these are the rows of the sides of a kind.
pub fn has_table(kind: &Kind, turn: u64, table: &str) -> bool {
    let mut wanted = all_of(table);
    for side in 0..kind.sides() {
        for row in 0..kind.rows(side) {
            for end in 0..kind.ends() {
                if kind.side_of(end) == side {
                    let mark = kind.mark(side, row, end);
                    write(&mut wanted, letter(mark));
                    if mark == Mark::F && !kind.takes_in(end) {
                        write(&mut wanted, b'<');
                        write(&mut wanted, digit_or_none(kind.from(side, row, end)));
                    }
                }
            }
            write(&mut wanted, b':');
            write(&mut wanted, digit(kind.class(side, row, turn)));
            write(&mut wanted, b'/');
            write(&mut wanted, digit(kind.group(side, row)));
            write(&mut wanted, digit_or_none(kind.apart(side, row)));
            write(&mut wanted, b' ');
        }
        write(&mut wanted, b'|');
    }
    is_found(&wanted)
}

/// Whether these are the groups of side 0 of a kind, and whether it leads.
pub fn has_groups(kind: &Kind, groups: &str) -> bool {
    let mut wanted = all_of(groups);
    if 0 < kind.sides() {
        for group in 0..kind.groups(0) {
            for end in 0..kind.ends() {
                if kind.side_of(end) == 0 {
                    write(&mut wanted, letter(kind.common(0, group, end)));
                }
            }
            write(&mut wanted, b' ');
        }
        write(&mut wanted, if kind.leads(0) { b'L' } else { b'-' });
    }
    is_found(&wanted)
}

#[test]
fn each_kind_has_its_table_in_each_state_and_its_groups(rt: HostRuntime) {
    all_are_right(&rt, rt.alloc(), CASES);
}

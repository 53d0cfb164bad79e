//! What engines answer, plan and make.
use crate::changes::Change::{self, Idle, Item, Jammed, Less, Moved, Port, Row};
use crate::checks::is;
use crate::playing::Act::{self, Changed, Judged, Offer, Pending, Plan, Round, Suits, Withdraw};
use crate::playing::are_played;
use reo_checker::Wrong;
use reo_engine::OfferFault;

/// A buffer of two places, which holds 7.
const BUFFERED: &[u8] = b"connector main(in a: int 0..9, out b: int 0..9) { fifo 2 a b with 7; }";

/// Between a and b there are two channels, so neither can flow; c and d stand apart.
const APART: &[u8] =
    b"connector main(in a: int 0..9, out b: int 0..9, in c: int 0..9, out d: int 0..9) \
{ sync a b; sync a b; sync c d; }";

/// Offers that are taken and declined, and taken back.
const OFFERS: &[Act] = &[
    Offer(0, Some(1), None),
    Offer(0, Some(2), Some(OfferFault::Pending)),
    Offer(1, Some(3), Some(OfferFault::WrongWay)),
    Offer(2, None, Some(OfferFault::NoPort)),
    // the first cause counts
    Offer(2, Some(10), Some(OfferFault::NoPort)),
    Offer(0, None, Some(OfferFault::WrongWay)),
    Offer(1, Some(10), Some(OfferFault::WrongWay)),
    Offer(0, Some(10), Some(OfferFault::Pending)),
    Pending(0, true),
    Pending(1, false),
    Withdraw(2, false),
    Withdraw(1, false),
    Withdraw(0, true),
    Withdraw(0, false),
    Pending(0, false),
    Offer(0, Some(10), Some(OfferFault::ItemOutside)),
    Offer(0, Some(-1), Some(OfferFault::ItemOutside)),
    Pending(0, false),
    Offer(0, Some(9), None),
    Offer(1, None, None),
    Offer(1, None, Some(OfferFault::Pending)),
    Withdraw(1, true),
    Pending(0, true),
];

/// Rounds one after the other. Rows of the writer, the taker, the mouth and the tail.
const ROUNDS: &[Act] = &[
    Offer(0, Some(1), None),
    Offer(1, None, None),
    Plan(&[0, 0, 0, 0], (&[(0, 1), (1, 7)], false, 0)),
    Suits(true),
    Round(&[], (&[(0, 1), (1, 7)], false, 0), 1),
    Pending(0, false),
    Pending(1, false),
    Suits(false),
    Plan(&[0, 0, 1, 1], (&[], true, 0)),
    Round(&[], (&[], true, 0), 2),
    Suits(true),
    Offer(1, None, None),
    Suits(false),
    Round(&[], (&[(1, 1)], false, 0), 3),
    // nothing is left to be taken
    Offer(1, None, None),
    Plan(&[0, 1, 1, 0], (&[], true, 0)),
    Round(&[], (&[], true, 0), 4),
    Pending(1, true),
];

/// A plan that is kept, while offers come and go and rounds are made.
const KEPT: &[Act] = &[
    Offer(0, Some(1), None),
    Offer(1, None, None),
    Plan(&[0, 0, 0, 0], (&[(0, 1), (1, 7)], false, 0)),
    Withdraw(0, true),
    Suits(false),
    Offer(0, Some(2), None),
    Suits(false),
    Withdraw(0, true),
    Offer(0, Some(1), None),
    Suits(true),
    Round(&[], (&[(0, 1), (1, 7)], false, 0), 1),
    Offer(0, Some(1), None),
    Offer(1, None, None),
    // the buffer gives 1 now, and not 7
    Suits(false),
];

/// The colouring with a jam everywhere.
const JAM: &[Change] = &[
    Row(0, 2),
    Row(1, 2),
    Row(2, 2),
    Row(3, 2),
    Item(0, None),
    Item(1, None),
    Less,
    Less,
    Idle(true),
    Jammed(4),
];

/// Plans with one thing changed, and the other colouring.
const CHANGED: &[Act] = &[
    Offer(0, Some(1), None),
    Offer(1, None, None),
    Changed(&[], true),
    Changed(&[Row(0, 1)], false),
    Changed(&[Row(1, 1)], false),
    Changed(&[Row(2, 2)], false),
    Changed(&[Row(3, 3)], false),
    Changed(&[Item(0, Some(2))], false),
    Changed(&[Item(0, None)], false),
    Changed(&[Item(1, Some(1))], false),
    Changed(&[Less], false),
    Changed(&[Port(1, 0)], false),
    Changed(&[Moved(0, 7)], false),
    Changed(&[Idle(true)], false),
    Changed(&[Jammed(1)], false),
    // it need not be the first
    Changed(JAM, true),
    Round(JAM, (&[], true, 4), 1),
    Pending(0, true),
    Pending(1, true),
    Round(&[], (&[(0, 1), (1, 7)], false, 0), 2),
];

/// Colourings of the buffer with something changed. The joints are from the writer to the mouth and
/// from the tail to the taker; mouth and tail are sides of primitive 2.
const JUDGED: &[Act] = &[
    Offer(0, Some(1), None),
    Offer(1, None, None),
    Judged(&[], None),
    Judged(JAM, None),
    Judged(&[Row(0, 1)], Some(Wrong::Joint { joint: 0 })),
    Judged(&[Row(1, 1)], Some(Wrong::Joint { joint: 1 })),
    Judged(&[Row(0, 3)], Some(Wrong::Row { primitive: 0 })),
    Judged(&[Row(3, 3)], Some(Wrong::Row { primitive: 2 })),
    Judged(&[Item(0, Some(2))], Some(Wrong::Item { joint: 0 })),
    Judged(&[Item(0, None)], Some(Wrong::Item { joint: 0 })),
    Judged(&[Item(1, Some(1))], Some(Wrong::Item { joint: 1 })),
    // what is judged first counts
    Judged(
        &[Row(0, 1), Row(3, 3), Item(0, None)],
        Some(Wrong::Row { primitive: 2 }),
    ),
    Judged(&[Row(1, 1), Item(0, None)], Some(Wrong::Joint { joint: 1 })),
];

/// Rows of the ports, the channels, the replicator and the merger.
const JAMS: &[Act] = &[
    Offer(0, Some(1), None),
    Offer(1, None, None),
    Plan(&[2, 2, 0, 0, 3, 3, 1, 4, 4], (&[], true, 6)),
    Offer(2, Some(2), None),
    Offer(3, None, None),
    Suits(false),
    Plan(&[2, 2, 0, 0, 3, 3, 0, 4, 4], (&[(2, 2), (3, 2)], false, 6)),
    Changed(&[Jammed(0)], false),
    Round(&[], (&[(2, 2), (3, 2)], false, 6), 1),
    Pending(0, true),
    Pending(1, true),
    Pending(2, false),
    Pending(3, false),
    Round(&[], (&[], true, 6), 2),
];

/// An engine with offers at a and b alone, and one with offers at c and d besides: the same sides
/// jam in both.
const WITHOUT: &[Act] = &[
    Offer(0, Some(1), None),
    Offer(1, None, None),
    Plan(&[2, 2, 0, 0, 3, 3, 1, 4, 4], (&[], true, 6)),
];

const WITH: &[Act] = &[
    Offer(3, None, None),
    Offer(2, Some(2), None),
    Offer(1, None, None),
    Offer(0, Some(1), None),
    Plan(&[2, 2, 0, 0, 3, 3, 0, 4, 4], (&[(2, 2), (3, 2)], false, 6)),
];

#[test]
fn engines_answer_as_told(rt: HostRuntime) {
    let alloc = rt.alloc();
    is(&rt, are_played(alloc, BUFFERED, OFFERS), "offers");
    is(&rt, are_played(alloc, BUFFERED, ROUNDS), "rounds");
    is(&rt, are_played(alloc, BUFFERED, KEPT), "kept");
    is(&rt, are_played(alloc, BUFFERED, CHANGED), "changed");
    is(&rt, are_played(alloc, BUFFERED, JUDGED), "judged");
    is(&rt, are_played(alloc, APART, JAMS), "jams");
    is(
        &rt,
        are_played(alloc, APART, WITHOUT),
        "without offers at c and d",
    );
    is(
        &rt,
        are_played(alloc, APART, WITH),
        "with offers at c and d",
    );
}

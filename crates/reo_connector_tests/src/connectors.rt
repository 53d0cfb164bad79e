//! What connectors answer.
use crate::acts::Act::{self, Item, Named, Offer, Port, Round, Text, Withdraw, WriteAll};
use crate::checks::is;
use crate::large::{merger, padded};
use crate::opening::Want::{Acts, Refused, TooLong};
use crate::opening::{Want, is_so};
use reo_connector::MOST_BYTES;
use reo_net_base::Way;
use reo_rounds::{Exceeds, OfferFault};
use reo_values::{Bytes, NoMemory};
use std::alloc::Global;
use std::str::from_utf8;

const BUDGET: u64 = 1_000_000;

/// One channel.
const SYNC: &[u8] = b"connector main(in a: int 0..9, out b: int 0..9) { sync a b; }";

/// Ports with their numbers.
const PORTS: &[Act] = &[
    Named(0, b"a", Way::In),
    Named(1, b"b", Way::Out),
    Port(b"a", Some(0)),
    Port(b"b", Some(1)),
    Port(b"c", None),
    Port(b"main", None),
    Port(b"", None),
];

/// A port of each kind of types.
const KINDS: &[u8] = b"type colour = sym { red, green };
connector main(in a: int -9..9, in b: bool, in c: colour, in d: text 6,
    in e: pair(int 0..9, bool), in f: unit)
{ syncdrain a b; syncdrain c d; syncdrain e f; }";

/// Items and their texts.
const ITEMS: &[Act] = &[
    Item(0, b"3", true),
    Item(0, b"-1", true),
    Item(0, b"9", true),
    Item(0, b"10", false),
    Item(0, b"-10", false),
    Item(0, b"03", false),
    Item(0, b"-0", false),
    Item(0, b"", false),
    Item(0, b"true", false),
    Item(1, b"true", true),
    Item(1, b"false", true),
    Item(1, b"1", false),
    Item(2, b"green", true),
    Item(2, b"blue", false),
    Item(3, b"\"a text\"", true),
    Item(3, b"\"\"", true),
    Item(3, b"\"\\\"\\\\\"", true),
    // seven bytes, and no quotes
    Item(3, b"\"a text.\"", false),
    Item(3, b"a text", false),
    Item(4, b"(1,true)", true),
    Item(4, b"(1, true)", false),
    Item(4, b"(true,1)", false),
    Item(5, b"unit", true),
    // no port has this number
    Item(6, b"unit", false),
    Text(0, -7, b"-7"),
    Text(5, 7, b""),
    Text(6, 7, b""),
];

/// Offers that are taken and declined, and taken back. The first cause counts.
const OFFERS: &[Act] = &[
    Offer(2, Some(10), Some(OfferFault::NoPort)),
    Offer(2, None, Some(OfferFault::NoPort)),
    Offer(0, None, Some(OfferFault::WrongWay)),
    Offer(1, Some(10), Some(OfferFault::WrongWay)),
    Offer(0, Some(10), Some(OfferFault::ItemOutside)),
    Offer(0, Some(-1), Some(OfferFault::ItemOutside)),
    Withdraw(0, false),
    Offer(0, Some(1), None),
    Offer(0, Some(10), Some(OfferFault::Pending)),
    Withdraw(2, false),
    Withdraw(1, false),
    Withdraw(0, true),
    Withdraw(0, false),
    Offer(1, None, None),
    Offer(1, None, Some(OfferFault::Pending)),
    // what was taken back does not flow, and what was declined neither
    Round(BUDGET, Ok((&[], true, 0)), 1),
    Offer(0, Some(9), None),
    Round(BUDGET, Ok((&[(0, 9), (1, 9)], false, 0)), 2),
    Withdraw(0, false),
    Withdraw(1, false),
];

/// A buffer of one place.
const BUFFER: &[u8] = b"connector main(in a: int 0..9, out b: int 0..9) { fifo1 a b; }";

/// An item that waits in the buffer, and one that waits before it.
const ROUNDS: &[Act] = &[
    Round(BUDGET, Ok((&[], true, 0)), 1),
    Offer(0, Some(3), None),
    Round(BUDGET, Ok((&[(0, 3)], false, 0)), 2),
    Offer(0, Some(4), None),
    Round(BUDGET, Ok((&[], true, 0)), 3),
    Offer(1, None, None),
    Round(BUDGET, Ok((&[(1, 3)], false, 0)), 4),
    Offer(1, None, None),
    Round(BUDGET, Ok((&[(0, 4)], false, 0)), 5),
    Round(BUDGET, Ok((&[(1, 4)], false, 0)), 6),
    Withdraw(1, false),
];

/// The exclusive router: source, left and right are ports 0, 1 and 2.
const ROUTER: &[u8] =
    b"connector main(in source: int 0..9, out left: int 0..9, out right: int 0..9) {
  node to_left: int 0..9; node to_right: int 0..9; node chosen: int 0..9;
  lossy source to_left; lossy source to_right; sync to_left left; sync to_left chosen;
  sync to_right right; sync to_right chosen; syncdrain source chosen;
}";

/// Each item goes to one side. Where both sides take it is the turn of the right, once the left
/// had it.
const TURNS: &[Act] = &[
    Offer(0, Some(1), None),
    Offer(1, None, None),
    Round(BUDGET, Ok((&[(0, 1), (1, 1)], false, 0)), 1),
    Offer(0, Some(2), None),
    Offer(1, None, None),
    Offer(2, None, None),
    Round(BUDGET, Ok((&[(0, 2), (2, 2)], false, 0)), 2),
    Offer(0, Some(3), None),
    Round(BUDGET, Ok((&[(0, 3), (1, 3)], false, 0)), 3),
    Offer(2, None, None),
    Round(BUDGET, Ok((&[], true, 0)), 4),
    Withdraw(2, true),
];

/// Between a and b there are two channels, so neither can flow; c and d stand apart.
const APART: &[u8] =
    b"connector main(in a: int 0..9, out b: int 0..9, in c: int 0..9, out d: int 0..9)
{ sync a b; sync a b; sync c d; }";

/// The two ports, the two channels, the replicator and the merger jam.
const JAMS: &[Act] = &[
    Offer(0, Some(1), None),
    Offer(1, None, None),
    Offer(2, Some(2), None),
    Offer(3, None, None),
    Round(BUDGET, Ok((&[(2, 2), (3, 2)], false, 6)), 1),
    Round(BUDGET, Ok((&[], true, 6)), 2),
    Withdraw(0, true),
    Withdraw(1, true),
];

/// A drain with both ends at one port.
const DRAIN: &[u8] = b"connector main(in a: int 0..9) { syncdrain a a; }";

/// The loop joint has five values: the item, jam, and three ways to rest.
const SPENT: &[Act] = &[
    Offer(0, Some(1), None),
    Round(4, Err(Exceeds::Spent { knot: 0, weight: 5 }), 0),
    // nothing has changed
    Offer(0, Some(1), Some(OfferFault::Pending)),
    Round(5, Ok((&[(0, 1)], false, 0)), 1),
    Withdraw(0, false),
];

/// At the port to which 257 channels lead as many items can stand.
const WIDE: &[Act] = &[
    WriteAll(257),
    Offer(257, None, None),
    Round(1_000_000_000, Err(Exceeds::Wide { knot: 0 }), 0),
    Withdraw(257, true),
    Withdraw(0, true),
];

/// Texts of both versions, and what they come to.
const TEXTS: &[(&[u8], Want<'static>)] = &[
    (SYNC, Acts(PORTS)),
    (KINDS, Acts(ITEMS)),
    (SYNC, Acts(OFFERS)),
    (BUFFER, Acts(ROUNDS)),
    (ROUTER, Acts(TURNS)),
    (APART, Acts(JAMS)),
    (DRAIN, Acts(SPENT)),
    (b"connector main() { }", Acts(&[])),
    (
        b"reo 2 connector main(in a: unit, out b: unit) { quota 3 a b; }",
        Acts(&[]),
    ),
    (b"", Refused(None, b"no main")),
    (b"type digit = int 0..9;", Refused(None, b"no main")),
    (b"connector main() { }\n$", Refused(Some(2), b"bad byte")),
    (b"connector main() {\n", Refused(Some(1), b"syntax")),
    (
        b"connector main() { }\n\nconnector main() { }",
        Refused(Some(3), b"main twice"),
    ),
    (
        b"connector main(in a: unit, out b: unit) {\n  sync a c;\n}",
        Refused(Some(2), b"c unknown"),
    ),
    (
        b"connector main(in a: unit, out b: bool) {\n  sync a b;\n}",
        Refused(Some(2), b"mistyped"),
    ),
    (
        b"connector main(in a: unit,\n  in b: unit) { sync a b; }",
        Refused(Some(2), b"direction b"),
    ),
    (
        b"reo 2\nconnector main(in a: unit, out b: unit) {\n  sync a.i b;\n}",
        Refused(Some(3), b"i unbound"),
    ),
];

/// Whether a text that was made comes to this.
fn is_made_so(alloc: Global, text: &Result<Bytes, NoMemory>, want: Want<'_>) -> bool {
    match text {
        Ok(text) => is_so(alloc, text.as_slice(), want),
        Err(NoMemory) => false,
    }
}

#[test]
fn texts_come_to_what_is_told(rt: HostRuntime) {
    let alloc = rt.alloc();
    for (text, want) in TEXTS {
        is(
            &rt,
            is_so(alloc, text, *want),
            from_utf8(text).unwrap_or(""),
        );
    }
}

#[test]
fn large_texts_come_to_what_is_told(rt: HostRuntime) {
    let alloc = rt.alloc();
    is(&rt, MOST_BYTES == 1_048_576, "most bytes");
    let longest = padded(alloc, MOST_BYTES);
    is(&rt, is_made_so(alloc, &longest, Acts(&[])), "longest");
    let longer = padded(alloc, 1_048_577);
    is(&rt, is_made_so(alloc, &longer, TooLong), "too long");
    let wide = merger(alloc, 257);
    is(&rt, is_made_so(alloc, &wide, Acts(WIDE)), "wide");
}

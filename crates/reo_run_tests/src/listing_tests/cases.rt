//! Small circuits.
use crate::listing_tests::circuits::{Case, check};
use std::test::Fail;

/// Circuits, and what is written of their tables within the budget of a command.
const CASES: &[(&[u8], &[u8])] = &[
    (b"connector main() { }", b"listed 0 parts, 0 rows\n"),
    (
        b"connector main(in a: int 0..9, out b: int 0..9) { sync a b; }",
        b"part 0: a b\nFF\nGG\nGR\nRG\nlisted 1 parts, 4 rows\n",
    ),
    // the lossy channel never loses against a taker that requires a reason
    (
        b"connector main(in a: int 0..9, out b: int 0..9) { lossy a b; }",
        b"part 0: a b\nFF\nFG\nGG\nGR\nlisted 1 parts, 4 rows\n",
    ),
    // a part in which nothing flows, and one in which something does
    (
        b"connector main(in a: int 0..9, out b: int 0..9, in c: int 0..9, out d: int 0..9) \
{ sync a b; sync a b; sync c d; }",
        b"part 0: a b\nGG\nGR\nRG\npart 1: c d\nFF\nGG\nGR\nRG\nlisted 2 parts, 7 rows\n",
    ),
    // the mouth of a buffer that is empty, and its tail
    (
        b"connector main(in a: unit, out b: unit) { fifo1 a b; }",
        b"part 0: a\nF\nG\npart 1: b\nG\nR\nlisted 2 parts, 4 rows\n",
    ),
    // of one that is full, and of one that is neither
    (
        b"connector main(in a: int 0..9, out b: int 0..9) { fifo1 a b with 7; }",
        b"part 0: a\nG\nR\npart 1: b\nF\nG\nlisted 2 parts, 4 rows\n",
    ),
    (
        b"connector main(in a: int 0..9, out b: int 0..9) { fifo 2 a b with 7; }",
        b"part 0: a\nF\nG\npart 1: b\nF\nG\nlisted 2 parts, 4 rows\n",
    ),
    // a lossy channel before a buffer that is empty
    (
        b"connector main(in a: int 0..9, out b: int 0..9) \
{ node m: int 0..9; lossy a m; fifo1 m b; }",
        b"part 0: a\nF\nG\npart 1: b\nG\nR\nlisted 2 parts, 4 rows\n",
    ),
    // two that pass together or not at all: all but that each of four requires a reason
    (
        b"connector main(in a: unit, in b: unit, out c: unit, out d: unit) \
{ sync a c; sync b d; syncdrain a b; }",
        b"part 0: a b c d\nFFFF\nGGGG\nGGGR\nGGRG\nGGRR\nGRGG\nGRGR\nGRRG\nGRRR\nRGGG\nRGGR\nRGRG\n\
RGRR\nRRGG\nRRGR\nRRRG\nlisted 1 parts, 16 rows\n",
    ),
    (
        b"connector main(in a: int 0..9, in b: int 0..9) { asyncdrain a b; }",
        b"part 0: a b\nFG\nFR\nGF\nGG\nRF\nlisted 1 parts, 5 rows\n",
    ),
    (
        b"connector main(in a: unit, in b: unit, out c: unit) { sync a c; sync b c; }",
        b"part 0: a b c\nFGF\nFRF\nGFF\nGGG\nGGR\nGRG\nRFF\nRGG\nRRG\nlisted 1 parts, 9 rows\n",
    ),
    // what a map makes of items is not asked
    (
        b"connector main(in a: int 0..9, out b: int 0..19) { map a b to it * 2 + 1; }",
        b"part 0: a b\nFF\nGG\nGR\nRG\nlisted 1 parts, 4 rows\n",
    ),
    // a part that jams whatever its surroundings say has no list
    (
        b"connector main(in a: unit, out b: unit) \
{ node m: unit; fifo1 a m with unit; asyncdrain m m; lossy m b; }",
        b"part 0: a\nG\nR\npart 1: b\nlisted 2 parts, 2 rows\n",
    ),
    (
        b"connector main(in a: int 0..9, out b: int 0..9) { filter a b when it > 5; }",
        b"list refused: filter 2\n",
    ),
    (
        b"connector main(in a: int 0..9, out b: int 0..9, in c: int 0..9, out d: int 0..9) \
{ sync a b; filter c d when it > 5; filter a b when it > 5; }",
        b"list refused: filter 5\n",
    ),
];

/// A circuit, budgets, and what is written: a drain from a port to itself has one loop joint, at
/// which an item, the three ways without flow and the jam row are supported. In the circuit itself
/// nothing is offered, and no item is.
const WEIGHED: &[(&[u8], u32, &[u8])] = &[
    (
        b"connector main(in a: unit) { syncdrain a a; }",
        5,
        b"part 0: a\nF\nG\nR\nlisted 1 parts, 3 rows\n",
    ),
    (
        b"connector main(in a: unit) { syncdrain a a; }",
        4,
        b"spent in list: part 0 weight 5 budget 4\n",
    ),
    (
        b"connector main(in a: unit, in b: unit, in c: unit) { syncdrain a b; syncdrain c c; }",
        5,
        b"part 0: a b\nFF\nGG\nGR\nRG\npart 1: c\nF\nG\nR\nlisted 2 parts, 7 rows\n",
    ),
    (
        b"connector main(in a: unit, in b: unit, in c: unit) { syncdrain a b; syncdrain c c; }",
        4,
        b"spent in list: part 1 weight 5 budget 4\n",
    ),
    // a filter is refused before all else
    (
        b"connector main(in a: unit, in c: int 0..9, out d: int 0..9) \
{ syncdrain a a; filter c d when it > 5; }",
        4,
        b"list refused: filter 4\n",
    ),
    // a part without ports is not listed, whatever it weighs
    (
        b"connector main() { node m: unit; node n: unit; \
fifo1 m n; syncdrain n n; fifo1 n m; }",
        1,
        b"listed 0 parts, 0 rows\n",
    ),
];

#[test]
fn small_circuits_are_listed(rt: HostRuntime) -> Result<(), Fail> {
    for (circuit, text) in CASES {
        let case = Case {
            circuit,
            budget: 100_000,
            text,
        };
        check(&rt, rt.alloc(), case)?;
    }
    Ok(())
}

#[test]
fn parts_are_listed_within_their_budget(rt: HostRuntime) -> Result<(), Fail> {
    for (circuit, budget, text) in WEIGHED {
        let case = Case {
            circuit,
            budget: *budget,
            text,
        };
        check(&rt, rt.alloc(), case)?;
    }
    Ok(())
}

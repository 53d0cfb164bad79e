//! Parts with as many lists as a table may have, and with more.
use crate::listing_tests::circuits::{Case, check};
use reo_values::{Bytes, NoMemory};
use std::alloc::Global;
use std::test::Fail;

/// One writer and eleven takers.
const TWELVE: &[u8] = b"connector main(in a: unit, out b: unit, out c: unit, out d: unit, \
out e: unit, out f: unit, out g: unit, out h: unit, out i: unit, out j: unit, out k: unit, \
out l: unit) { sync a b; sync a c; sync a d; sync a e; sync a f; sync a g; sync a h; sync a i; \
sync a j; sync a k; sync a l; }";

/// One taker more.
const THIRTEEN: &[u8] = b"connector main(in a: unit, out b: unit, out c: unit, out d: unit, \
out e: unit, out f: unit, out g: unit, out h: unit, out i: unit, out j: unit, out k: unit, \
out l: unit, out m: unit) { sync a b; sync a c; sync a d; sync a e; sync a f; sync a g; \
sync a h; sync a i; sync a j; sync a k; sync a l; sync a m; }";

/// The same with a drain from the writer to itself, whose loop joint has five values.
const DRAINED: &[u8] = b"connector main(in a: unit, out b: unit, out c: unit, out d: unit, \
out e: unit, out f: unit, out g: unit, out h: unit, out i: unit, out j: unit, out k: unit, \
out l: unit, out m: unit) { sync a b; sync a c; sync a d; sync a e; sync a f; sync a g; \
sync a h; sync a i; sync a j; sync a k; sync a l; sync a m; syncdrain a a; }";

/// Adds the letters of twelve ports of which none flows, by the bits of a number.
fn append_word(text: &mut Bytes, number: u32) -> Result<(), NoMemory> {
    for place in 0..12u32 {
        let bit = number >> (11 - place) & 1;
        text.push(if bit == 1 { b'R' } else { b'G' })?;
    }
    text.append(b"\n")
}

/// All flow, or none does: then whatever they say, but that each requires a reason.
fn words(alloc: Global) -> Result<Bytes, NoMemory> {
    let mut text = Bytes::from_slice(alloc, b"part 0: a b c d e f g h i j k l\nFFFFFFFFFFFF\n")?;
    for number in 0..4095u32 {
        append_word(&mut text, number)?;
    }
    text.append(b"listed 1 parts, 4096 rows\n")?;
    Ok(text)
}

#[test]
fn as_many_lists_as_may_be(rt: HostRuntime) -> Result<(), Fail> {
    let text = words(rt.alloc())?;
    let case = Case {
        circuit: TWELVE,
        budget: 100_000,
        text: text.as_slice(),
    };
    check(&rt, rt.alloc(), case)
}

#[test]
fn more_lists_are_refused(rt: HostRuntime) -> Result<(), Fail> {
    let cases: [(&[u8], u32, &[u8]); 3] = [
        (THIRTEEN, 1, b"list refused: rows 0\n"),
        (DRAINED, 5, b"list refused: rows 0\n"),
        // what weighs too much is not counted
        (DRAINED, 4, b"spent in list: part 0 weight 5 budget 4\n"),
    ];
    for (circuit, budget, text) in &cases {
        let case = Case {
            circuit,
            budget: *budget,
            text,
        };
        check(&rt, rt.alloc(), case)?;
    }
    Ok(())
}

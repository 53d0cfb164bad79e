//! Circuit texts that grow.
use reo_values::{Bytes, NoMemory, append_number};
use std::alloc::Global;

/// Where a piece of a text stands: once, or for each number below the size, or for each but zero.
#[derive(Clone, Copy)]
enum Times {
    Once,
    Each,
    EachButZero,
}

/// A piece of a circuit text. In it `#` is the number that it stands for, `+` the next one, and `!`
/// the size.
type Piece = (Times, &'static str);

/// Synchronous channels in a row.
const CHAIN: &[Piece] = &[
    (Times::Once, "connector main(in n0: t, out n!: t) {"),
    (Times::EachButZero, " node n#: t;"),
    (Times::Each, " sync n# n+;"),
    (Times::Once, " }"),
];

/// One port that writes to so many that take.
const BROADCAST: &[Piece] = &[
    (Times::Once, "connector main(in a: t"),
    (Times::Each, ", out b#: t"),
    (Times::Once, ") {"),
    (Times::Each, " sync a b#;"),
    (Times::Once, " }"),
];

/// One port that takes from so many that write.
const MERGER: &[Piece] = &[
    (Times::Once, "connector main(out b: t"),
    (Times::Each, ", in a#: t"),
    (Times::Once, ") {"),
    (Times::Each, " sync a# b;"),
    (Times::Once, " }"),
];

/// One port that writes to one of so many that take.
const ROUTER: &[Piece] = &[
    (Times::Once, "connector main(in a: t"),
    (Times::Each, ", out b#: t"),
    (Times::Once, ") { node k: t;"),
    (
        Times::Each,
        " node x#: t; lossy a x#; sync x# b#; sync x# k;",
    ),
    (Times::Once, " syncdrain a k; }"),
];

/// The pieces of a kind of circuit, if there is one of this name.
fn pieces_of(kind: &str) -> Option<&'static [Piece]> {
    match kind {
        "chain" => Some(CHAIN),
        "broadcast" => Some(BROADCAST),
        "merger" => Some(MERGER),
        "router" => Some(ROUTER),
        _ => None,
    }
}

/// Adds a piece for one number.
fn put(
    alloc: Global,
    text: &mut Bytes,
    piece: &str,
    number: u16,
    size: u16,
) -> Result<(), NoMemory> {
    for byte in piece.as_bytes() {
        match *byte {
            b'#' => append_number(alloc, text, i64::from(number))?,
            b'+' => append_number(alloc, text, i64::from(number) + 1)?,
            b'!' => append_number(alloc, text, i64::from(size))?,
            other => text.push(other)?,
        }
    }
    Ok(())
}

/// Adds a piece for all numbers that it stands for.
fn put_all(alloc: Global, text: &mut Bytes, piece: &Piece, size: u16) -> Result<(), NoMemory> {
    let (times, piece) = *piece;
    let (from, to) = match times {
        Times::Once => (0, 1),
        Times::Each => (0, size),
        Times::EachButZero => (1, size),
    };
    for number in from..to {
        put(alloc, text, piece, number, size)?;
    }
    Ok(())
}

/// The text of a circuit of this kind and size, if there is such a kind.
pub fn text_of(alloc: Global, kind: &str, size: u16) -> Result<Option<Bytes>, NoMemory> {
    let Some(pieces) = pieces_of(kind) else {
        return Ok(None);
    };
    let mut text = Bytes::from_slice(alloc, b"type t = int 0..9; ")?;
    for piece in pieces {
        put_all(alloc, &mut text, piece, size)?;
    }
    Ok(Some(text))
}

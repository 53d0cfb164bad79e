//! What stands in the circuits of the tests.
use crate::checks::MEMORY;
use reo_buffers::Buffer;
use reo_exprs::{Expr, ExprPair, type_of};
use reo_kinds::{Branches, FilterRule, Kind, MapRule, TakerPort, WriterPort};
use reo_net_base::{Offer, Ported};
use reo_values::{Binary, Boxed, Kindred, List, Value};
use std::alloc::Global;
use std::process::Abort;

/// One of the primitives of a circuit. All items are 0 to 9.
#[derive(Clone, Copy)]
pub enum Piece {
    /// A port where items are written, with this one offered, or nothing.
    Writer(Option<i64>),
    /// A port where items are taken.
    Taker(bool),
    Sync,
    Lossy,
    SyncDrain,
    AsyncDrain,
    /// With two inputs, or with three.
    Merger(usize),
    /// With two outputs, or with three.
    Replicator(usize),
    /// The filter by `it` with these operators and numbers behind it, or the map by it.
    By(&'static [(Binary, i64)]),
    /// A buffer of this size with these items.
    Store(usize, &'static [i64]),
    /// A shift buffer of this size with these items.
    Shift(usize, &'static [i64]),
    /// A variable that holds this item, or none.
    Variable(Option<i64>),
    /// With so many left.
    Quota(u32),
}

/// The filter by `it > 5`.
pub const ABOVE: Piece = Piece::By(&[(Binary::Gt, 5)]);

/// The filter by `it <= 5`.
pub const REST: Piece = Piece::By(&[(Binary::Le, 5)]);

/// The map by `it * 2 + 1`.
pub const TWICE_AND_ONE: Piece = Piece::By(&[(Binary::Mul, 2), (Binary::Add, 1)]);

/// A port where items are written, with this one offered, or nothing.
fn writer(item: Option<i64>) -> Kind {
    let mut writer = Kind::Writer(WriterPort::new(Kindred::Int(0, 9)));
    if let Some(number) = item {
        if writer.fits(&Value::Int(number)) {
            writer.place(Offer::Write(Value::Int(number)));
        }
    }
    writer
}

/// `it` with these operators and numbers behind it, one after the other.
fn expr(rt: &impl Abort, alloc: Global, steps: &[(Binary, i64)]) -> Expr {
    let mut expr = Expr::It;
    for (op, number) in steps {
        let right = Expr::Int(*number);
        let pair = Boxed::new(alloc, ExprPair { left: expr, right });
        expr = Expr::Two(*op, pair.expect(rt, MEMORY));
    }
    expr
}

/// The filter by an expression that has truth values, or the map by another.
fn by(rt: &impl Abort, alloc: Global, expr: Expr) -> Kind {
    let of = Kindred::Int(0, 9);
    match type_of(alloc, &expr, &of).expect(rt, "a type") {
        Kindred::Bool => Kind::Filter(FilterRule::new(of, expr)),
        _ => Kind::Map(MapRule::new(of, expr)),
    }
}

/// A buffer into which these items were put, as many as fit.
fn filled(rt: &impl Abort, alloc: Global, size: usize, numbers: &[i64]) -> Buffer {
    let mut buffer = Buffer::new(alloc, size.clamp(1, 1024)).expect(rt, MEMORY);
    for number in numbers {
        if !buffer.is_full() {
            buffer.put(Value::Int(*number));
        }
    }
    buffer
}

/// The number as an item.
pub fn item(number: Option<i64>) -> Option<Value> {
    match number {
        Some(number) => Some(Value::Int(number)),
        None => None,
    }
}

/// The primitive that a piece stands for.
pub fn kind(rt: &impl Abort, alloc: Global, piece: Piece) -> Kind {
    match piece {
        Piece::Writer(item) => writer(item),
        Piece::Taker(pending) => Kind::Taker(TakerPort { pending }),
        Piece::Sync => Kind::Sync,
        Piece::Lossy => Kind::Lossy,
        Piece::SyncDrain => Kind::SyncDrain,
        Piece::AsyncDrain => Kind::AsyncDrain,
        Piece::Merger(inputs) => Kind::Merger(Branches::new(inputs.clamp(2, 3))),
        Piece::Replicator(outputs) => Kind::Replicator(Branches::new(outputs.clamp(2, 3))),
        Piece::By(steps) => by(rt, alloc, expr(rt, alloc, steps)),
        Piece::Store(size, numbers) => Kind::Store(filled(rt, alloc, size, numbers)),
        Piece::Shift(size, numbers) => Kind::Shift(filled(rt, alloc, size, numbers)),
        Piece::Variable(number) => Kind::Variable(item(number)),
        Piece::Quota(left) => Kind::Quota(left),
    }
}

/// Words for pieces: `w` and `t` are ports, with the number that is offered behind `w` and a sign
/// behind `t` where an item can be taken; `m2` is a merger and `r2` a replicator; `b2` is an empty
/// buffer of this size.
const WORDS: &[(&str, Piece)] = &[
    ("w", Piece::Writer(None)),
    ("w0", Piece::Writer(Some(0))),
    ("w2", Piece::Writer(Some(2))),
    ("w3", Piece::Writer(Some(3))),
    ("w4", Piece::Writer(Some(4))),
    ("w5", Piece::Writer(Some(5))),
    ("w6", Piece::Writer(Some(6))),
    ("w9", Piece::Writer(Some(9))),
    ("t", Piece::Taker(false)),
    ("t+", Piece::Taker(true)),
    ("sync", Piece::Sync),
    ("lossy", Piece::Lossy),
    ("drain", Piece::SyncDrain),
    ("adrain", Piece::AsyncDrain),
    ("above", ABOVE),
    ("rest", REST),
    ("map", TWICE_AND_ONE),
    ("m2", Piece::Merger(2)),
    ("m3", Piece::Merger(3)),
    ("r2", Piece::Replicator(2)),
    ("r3", Piece::Replicator(3)),
    ("b1", Piece::Store(1, &[])),
    ("b2", Piece::Store(2, &[])),
];

/// The piece that a word says.
fn piece_of(word: &str) -> Option<Piece> {
    for (name, piece) in WORDS {
        if *name == word {
            return Some(*piece);
        }
    }
    None
}

/// The primitives that words say.
pub fn read_kinds(rt: &impl Abort, alloc: Global, words: &str) -> List<Kind> {
    let mut kinds = List::new(alloc);
    for word in words.split(' ') {
        let piece = piece_of(word).expect(rt, word);
        kinds.push(kind(rt, alloc, piece)).expect(rt, MEMORY);
    }
    kinds
}

//! Types as cells, whose parts are numbers of other types.
use std::hash::Hash;

/// A type, whose parts are numbers of other types.
#[derive(Drop, PartialEq, Eq, Hash)]
pub(crate) enum TypeParts {
    /// The type with one item.
    Unit,
    /// The two truth values.
    Bool,
    /// The whole numbers from the first bound to the second.
    Int(i64, i64),
    /// One item for each name.
    Sym(Vec<Vec<u8>>),
    /// The texts of at most so many bytes.
    Text(u16),
    /// The pairs of an item of each of two types.
    Pair(usize, usize),
}

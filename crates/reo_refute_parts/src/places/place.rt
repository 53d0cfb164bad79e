//! Places of a key.

/// What a row puts at a place of its side.
#[derive(Clone, Copy)]
pub enum Number {
    /// Its class.
    Class,
    /// Its own number.
    Row,
}

/// A place of a key: a side, and what its row puts there.
#[derive(Clone, Copy)]
pub struct SidePlace {
    /// The number of the side, from 0.
    pub side: usize,
    /// What its row puts there.
    pub number: Number,
}

//! Many due times in a row, in which those that are due are found a block at a time. No call but
//! `new` takes memory.

mod dues;
mod search;

pub use dues::{Dues, NEVER};

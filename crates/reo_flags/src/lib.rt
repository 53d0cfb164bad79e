//! Many truth values as bits of words, so that those that are set are found a word at a time. No
//! call but `new` takes memory.
#![tactic(auto)]

mod dues;
mod flags;
mod words;

pub use dues::{Dues, NEVER};
pub use flags::Flags;

//! Columns of bytes, 32 at a time, with the answers of the plain definitions. No call takes memory.
#![tactic(auto)]

mod joints;
mod matched;
mod rows;

pub use joints::joints_match;
pub use rows::keep_rows;

/// How many bytes one load has.
pub(crate) const LANES: usize = 32;

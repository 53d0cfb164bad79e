//! Rounds of traces: the picture of a circuit in a round, and the table of what moved at its ports.
#![tactic(auto)]

mod cells;
mod columns;
mod losses;
mod marks;
mod picture;
mod table;

pub use picture::round_picture;
pub use table::table_text;

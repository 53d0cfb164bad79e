//! The first colouring of a circuit, part by part, with what is kept of parts from round to round.
#![tactic(auto)]

mod keeping;
mod kept;
mod laws;
mod part_of;
mod parts;
mod planning;
mod rows;
mod tables;

pub use kept::Kept;
pub use laws::{kept_elsewhere, kept_later, knots_stay, left_weighs_no_more};
pub use part_of::{PartOf, Planning};
pub use parts::search_part;
pub use planning::first_colouring;
pub use rows::{put_rows, written_over};
pub use tables::tables_of;

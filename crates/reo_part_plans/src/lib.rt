//! Rows of parts that are remembered by the state of the part.
#![tactic(auto)]

mod entry;
mod given;
mod laws;
mod looks;
mod plans;
mod searching;

pub use entry::RememberedRows;
pub use laws::{alike_same_rows, plans_stay};
pub use looks::Look;
pub use plans::Remembered;
pub use reo_planning::{
    Kept, PartOf, Planning, first_colouring, search_part, tables_of, written_over,
};

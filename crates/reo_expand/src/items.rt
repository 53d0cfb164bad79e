//! The expansion of items that are no loops.

mod arrays;
mod copying;
mod plain;
mod walk;
mod weights;

pub use copying::{copied_parameters, copied_type};
pub use walk::Walk;

//! Checks logs: that they show that no colouring stands before given rows.

mod checking;
mod colouring;
mod going;
mod lines;
mod part;
mod parts;
mod step;
mod stop;

pub use checking::check_proof;
pub(crate) use lines::Lines;
pub(crate) use part::check_part;
pub(crate) use stop::LogStop;

//! The static rules of a program: what its names, types and terms mean, and what breaks each.
#![tactic(auto)]

mod fault;
pub mod literals;
mod names;

pub use fault::FlatFault;
pub use literals::{is_item_of, item_of, items_of, place_of};
pub use names::Names;

//! The item lists of a circuit: for each joint the items that can stand there, in the order in
//! which passes over the joints find them.

mod lists;
mod noting;
mod rows;
mod visits;

pub use lists::item_lists;

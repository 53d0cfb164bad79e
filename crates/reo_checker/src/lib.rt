//! Judges any rows and any colouring of a circuit: whether they fit, and else what is wrong first.
//! No call takes memory.
#![tactic(auto)]

mod items;
mod joints;
mod judge;
mod rows;
mod wrong;

pub use items::item_fault;
pub use judge::{check, check_marks};
pub use wrong::Wrong;

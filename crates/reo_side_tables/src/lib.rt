//! What a search and a log look up of the sides of a circuit.
#![tactic(auto)]

mod board;
mod columns;
mod flows;
mod items;
mod joints;
mod marks;
mod sets;

pub use board::{Board, Flow, board_of, boards_of};
pub use items::{follows, gives_item, lets_in, source_of};
pub use joints::empty_lists;
pub use marks::{byte_of, end_at, giver_side, mark_at_joint, taker_side};
pub use sets::{Marks, marks_of};

//! The drawing command: what its words ask for, and the pictures and tables of files that are
//! fetched and read.
#![tactic(auto)]

mod circuit;
mod drawing;
mod round;
mod table;
mod words;

pub use drawing::draw;
pub use words::{Drawing, drawing_of};

//! The canonical text of a circuit program of version 2.

mod indexes;
mod items;
mod program;

pub use program::print_two;

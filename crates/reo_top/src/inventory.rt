//! A circuit's parts as a text: a line for each primitive with the names of its nodes, and how many
//! parts there are.

mod ends;
mod kind;
mod text;

pub use text::parts_text;

//! The first colouring, by trying rows over the whole circuit, side by side.

mod clash;
mod jam;
mod next;
mod search;

pub use search::plain_first;

//! A circuit that is talked to line by line, in pieces of any sizes.

mod answering;
mod closing;
mod fault;
mod flats;
mod hearing;
mod judging;
mod lines;
mod live;
mod offers;
mod open_line;
mod reply;
mod rounds;
mod texts;

pub use fault::{Going, LiveFault};
pub use live::Live;

//! A circuit that is talked to line by line, in pieces of any sizes.
#![tactic(auto)]

mod base;
mod closings;
mod hearing;
mod talk;

pub use base::{
    Answer, LineRefusal, cuts_change_nothing, ending_exists, hearing_exists, hearing_is_one,
};
pub use closings::{closing_exists, closing_is_one};
pub use hearing::{Heard, hear};
pub use talk::{Going, Live, LiveFault};

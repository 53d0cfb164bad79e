//! A circuit that is talked to line by line: what it hears, what it answers, and its laws.

mod answer;
mod fault;
mod laws;

pub use answer::Answer;
pub use fault::LineRefusal;
pub use laws::{cuts_change_nothing, ending_exists, hearing_exists, hearing_is_one};

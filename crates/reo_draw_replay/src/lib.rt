//! A trace that is replayed to its end, with the picture of one of its rounds made on the way.
#![tactic(auto)]

mod drawing;
mod laws;
mod showing;

pub use laws::one_round;
pub use showing::{Shown, show_round};

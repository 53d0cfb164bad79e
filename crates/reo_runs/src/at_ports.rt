//! The components of a run at the ports of its circuit: what they offer at the start of a round,
//! and how far they come in it.

mod advancing;
mod carrying;
mod offering;

pub use advancing::advance_all;
pub use carrying::{Carried, carry_out, known_moves, over_after};
pub use offering::offer_all;

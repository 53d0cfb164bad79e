//! A round of a circuit at the cost of what flows: the primitives go on that keep something and of
//! which some end flows, and all others stay.

mod flowing;
mod marked;
mod mouths;
mod one;

pub use flowing::{mark_flowing, mark_joint};
pub use marked::step_marked;

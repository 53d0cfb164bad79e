//! Laws of what circuit texts say. Each function is empty: its contract is a law.

mod laws;

pub use laws::{items_are_few, programs_are_spelled, programs_are_written};

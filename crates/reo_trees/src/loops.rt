//! Laws of loops that stand in one another.

mod laws;

pub use laws::{loops_by_last_tokens, loops_by_trees};

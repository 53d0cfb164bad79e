//! Laws of the programs that programs of the second version stand for. Each function is empty: its
//! contract is a law.

mod laws;

pub use laws::{expansions_are_few, expansions_are_spelled};

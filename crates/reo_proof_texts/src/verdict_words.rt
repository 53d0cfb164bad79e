//! The words of verdicts on rounds: numbers, the round, and what is wrong with its entries.

mod numbers;
mod words;

pub use numbers::append_numbered;
pub use words::{append_round, append_wrong};

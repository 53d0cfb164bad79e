//! Verdicts on traces, what each of them says, and their laws. Each function is empty: its contract
//! is a law.

mod laws;
mod verdict;

pub use laws::{one_verdict, refused_items_are_not_let_in, runs_are_verified, verified_says};
pub use verdict::{Refusal, Verdict};

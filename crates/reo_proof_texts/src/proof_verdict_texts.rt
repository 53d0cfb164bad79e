//! The line of a verdict on a proof text.

mod verdict;

pub use verdict::proof_verdict_line;

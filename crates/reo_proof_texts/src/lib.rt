//! Proof texts: the text of a run in which each round is followed by a log. What the verdict on one
//! is, and the laws of these verdicts. Each function is empty: its contract is a law.
#![tactic(auto)]

mod laws;
mod proof_verdict_texts;
mod refusal;
mod verdict_words;

pub use laws::{
    one_proof_verdict, proved_texts_are_of_runs, proved_texts_are_verified,
    verified_rounds_are_first,
};
pub use proof_verdict_texts::proof_verdict_line;
pub use refusal::ProofRefusal;
pub use verdict_words::{append_numbered, append_round, append_wrong};

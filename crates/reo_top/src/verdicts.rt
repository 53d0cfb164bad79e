//! The verdicts on traces and on proofs that are fetched and read.

mod proof;
mod verdict;
mod verifying;

pub use proof::verify_proof_claim;
pub use reo_verify::{Refusal, Verdict, verify_trace};
pub use reo_verify_proof::{ProofRefusal, verify_proof};
pub use verdict::{verdict_line, verdict_status};
pub use verifying::verify_claim;

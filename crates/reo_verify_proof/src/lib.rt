//! The verification of proof texts: a proof text is replayed, and each of its rounds is accepted by
//! its log.
#![tactic(auto)]

mod proof_rounds;
mod refusing;
mod replay;
mod verifying;

pub use proof_rounds::{RoundStop, prove_round};
pub use reo_proof_texts::ProofRefusal;
pub use verifying::verify_proof;

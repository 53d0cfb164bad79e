//! Laws of what runs with their logs write. Each function calls laws alone: its contract is a law.

mod laws;

pub use laws::{run_proofs_are_verified, runs_are_proof_texts};

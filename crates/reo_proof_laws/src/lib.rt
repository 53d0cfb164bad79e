//! There are logs for the first colourings of runs, and so proved texts of runs. Each function is
//! empty or calls laws: its contract is a law.
#![tactic(auto)]

mod logs;
mod proofs;
mod run_proofs;

pub use logs::{firsts_have_logs, logs_are_lines, within_is_narrow};
pub use proofs::{proofs_exist, proved_texts_are_cut};
pub use run_proofs::{run_proofs_are_verified, runs_are_proof_texts};

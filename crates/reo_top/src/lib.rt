//! The top call: words, files and a sink to a status.
#![tactic(auto)]

mod checking;
mod hearing;
mod inventory;
mod measuring;
mod printing;
mod runs;
mod tables;
mod top;
pub mod verdicts;

pub use inventory::parts_text;
pub use reo_command::{Command, Setting, Status, command_of};
pub use runs::{prove_circuit, run_circuit};
pub use tables::list_circuit;
pub use top::reo;
pub use verdicts::{
    ProofRefusal, Refusal, Verdict, verdict_line, verdict_status, verify_claim, verify_proof,
    verify_proof_claim, verify_trace,
};

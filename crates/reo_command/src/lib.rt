//! What commands are told: their words, their files, what is read in these, and what stops a
//! command before its own work.
#![tactic(auto)]

mod amount;
mod claim;
mod command;
mod fetching;
mod limit;
mod made;
mod number;
mod outside;
mod reading;
mod refusal;
mod request;
mod role;
mod setting;
mod status;
mod stop;
mod texts;
pub mod top_base;

pub use amount::Amount;
pub use claim::{Claim, ProofClaim, read_claim, read_proof};
pub use command::{Command, command_of};
pub use limit::usual_limits;
pub use made::make_run;
pub use outside::{flushed, words_of};
pub use reading::{CircuitAndScript, read_flat, read_program, read_run};
pub use refusal::{Refusal, append_refusal};
pub use request::{Request, request_of};
pub use role::Role;
pub use setting::Setting;
pub use status::{
    CIRCUIT_REFUSED, DONE, LIMIT_REACHED, OUT_OF_MEMORY, PART_OVER, PROOF_REFUSED, READ_FAULT,
    SCRIPT_REFUSED, STUCK, Status, TABLES_REFUSED, TOO_LONG, TRACE_REFUSED, WORDS_REFUSED,
    WRITE_FAULT,
};
pub use stop::Stop;
pub use top_base::{answer, no_memory, refuse};

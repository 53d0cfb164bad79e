//! Laws of the whole command. Each function is empty: its contract is a law.
#![tactic(auto)]

mod laws;

pub use laws::{
    limits_are_said, there_is_one_trace, verified_proofs_are_first, written_proofs_are_verified,
    written_traces_are_verified,
};

//! What is answered for a log: that it shows that rows are first, or why it does not. Each law is
//! an empty function.

mod fault;
mod laws;

pub use fault::ProofFault;
pub use laws::{one_fault, proof_or_fault};

//! Reading proof texts: what stands next in one.
#![tactic(auto)]

mod log;
mod next;
mod reader;

pub use next::{Next, read_next};
pub use reader::ProofReader;

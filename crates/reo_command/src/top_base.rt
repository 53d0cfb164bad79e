//! What the commands come to: answers with their statuses, lines of what stops them, and the cases
//! in which they end.

mod answering;
mod refusing;

pub use answering::{answer, no_memory};
pub use refusing::refuse;

//! Laws of what runs write. Each function is empty: its contract is a law.

mod laws;

pub use laws::{ports_are_told, runs_are_trace_texts};

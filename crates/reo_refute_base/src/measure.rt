//! What is owed for open branches becomes less with each line that is written to a log, as
//! mathematics. Each function is empty: its contract is a law.

mod laws;

pub use laws::{drops_lessen, splits_lessen};

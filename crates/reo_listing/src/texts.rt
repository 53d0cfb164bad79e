//! What is written of boundary tables: their text, and the lines of refusals.

mod numbers;
mod refusal;
mod table;
mod tables;

pub use refusal::fault_line;
pub use tables::tables_text;

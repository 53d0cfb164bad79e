//! The cells of all sides of a circuit, as the lines of its rounds show them, kept as text.
//!
//! From round to round few cells change: those are patched, and a line is made by one copy.

mod cells;
mod code;
mod laws;
mod line;
mod renewing;

pub use cells::Cells;
pub use laws::cells_stay;

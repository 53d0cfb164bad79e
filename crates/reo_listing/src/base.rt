//! Boundary tables: what they are, what listing them answers, and their laws.

mod fault;
mod laws;
mod table;

pub use fault::ListFault;
pub use laws::open_parts_are_narrow;
pub use table::BoundaryTable;

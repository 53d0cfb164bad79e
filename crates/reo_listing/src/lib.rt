//! Listing boundary tables: how a circuit can meet its surroundings.
#![tactic(auto)]

mod answers;
mod base;
mod gates;
mod laws;
mod listing;
mod parts;
mod ports;
mod rows;
mod texts;

pub use answers::{listing_exists, one_listing};
pub use base::{BoundaryTable, ListFault, open_parts_are_narrow};
pub use gates::open_ports_are_gates;
pub use laws::knots_stay_with_shape;
pub use listing::list;
pub use ports::{first_filter, ports_of};
pub use rows::{Lookups, rows_of};
pub use texts::{fault_line, tables_text};

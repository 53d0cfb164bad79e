//! The first assignment of a knot.
#![tactic(auto)]

mod choices;
mod laws;
mod searching;
mod tables;
mod widths;

pub use laws::first_rows_agree;
pub use reo_walk::{Part, Wanted, arrange};
pub use reo_weights::{Exceeds, Exceeds as SearchFault};
pub use searching::{first, first_on, first_with, weight};
pub use tables::Tables;

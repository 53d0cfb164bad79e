//! Bounds on how many items can stand at the joints of a part, and so on what the part weighs, told
//! by the tables of its sides alone.
#![tactic(auto)]

mod checking;
mod choices;
mod kept;
mod laws;
mod shares;

pub use kept::Bounds;
pub use laws::{bounded_parts_stay_within, bounds_stay, kept_bounds_stay};

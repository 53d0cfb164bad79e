//! The rows of the parts that are not settled: remembered, or searched by tables that are kept.
#![tactic(auto)]

mod laws;
mod lookups;
mod parts;
mod renewing;
mod settling;
mod standing;

pub use laws::lookups_stay;
pub use lookups::Lookups;
pub use reo_part_plans::{Kept, Planning, first_colouring, written_over};

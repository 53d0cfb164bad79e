//! The joint at each end of a circuit, found once for all.

mod ends;
mod laws;
mod noted;

pub use ends::{Ends, ends_of};
pub use laws::{ends_find_joints, ends_stay};

//! The places of a key, and the rows of sides that are allowed there.

mod allowed;
mod marking;
mod place;
mod places;

pub use allowed::AllowedRows;
pub use place::{Number, SidePlace};
pub use places::key_places;

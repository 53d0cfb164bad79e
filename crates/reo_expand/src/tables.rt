//! Tables of an expansion: where connectors of a name stand first, and which numbers are used.

mod first_places;
mod firsts;

pub use first_places::FirstPlaces;
pub use firsts::Firsts;

//! The first assignment of a knot in which each loop joint has one value: a walk from place to
//! place, each held to the least number of a row that works there.
#![tactic(auto)]

mod arranging;
mod hold;
mod part;
mod pinning;
mod place;
mod places;
mod walking;
mod wanted;

pub use arranging::{arrange, first_by};
pub use part::{Part, part_of};
pub use pinning::pin;
pub use place::KeyPlace;
pub use places::places_of;
pub use walking::walk;
pub use wanted::Wanted;

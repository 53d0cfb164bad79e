//! Laws of what listing boundary tables answers.

mod laws;

pub use laws::{listing_exists, one_listing};

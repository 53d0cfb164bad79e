//! How hearing all that a source gives closes, and what is answered in all.

mod laws;

pub use laws::{closing_exists, closing_is_one};

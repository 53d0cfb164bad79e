//! Laws of made work.

mod laws;

pub use laws::{accepted_is_not_refused, work_is_accepted};

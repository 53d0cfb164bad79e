//! Reading circuit texts of either version.

mod depth;
mod laws;
mod programs;
mod texts;

pub use laws::each_text_of_any_is_answered;
pub use texts::parse_any;

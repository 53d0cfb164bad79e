//! Laws of circuit texts: each has one tree, and each tree a text.
#![tactic(auto)]

pub mod syntax_two_laws;
pub mod trees_laws;
mod trees_two_laws;

pub use syntax_two_laws::canonical_text_two_says_the_program;
pub use trees_laws::{items_are_few, programs_are_spelled, programs_are_written};
pub use trees_two_laws::programs_two_are_spelled;

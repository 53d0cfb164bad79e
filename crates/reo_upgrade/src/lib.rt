//! Canonical texts of programs of either version, and programs as ones of version 2.
#![tactic(auto)]

mod laws;
mod printing;

pub use laws::{canonical_texts_of_any, lifted_programs_are_spelled, lifted_text_says_the_lifted};
pub use printing::{print_any, upgrade};

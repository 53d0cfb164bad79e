//! Reading the parts of every text: names, literals, types and terms, levels of tokens, and the
//! lines of refusals.
#![tactic(auto)]

mod levels;
mod literals;
mod name;
mod operators;
mod refusal;
mod terms;
mod types;

pub use levels::Levels;
pub use literals::literal;
pub use name::{name_before, names_before};
pub use refusal::line_of_refusal;
pub use terms::{term, term_before};
pub use types::{names, type_before, type_term};

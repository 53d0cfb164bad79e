//! Made work: circuits of stages in a row, with scripts for them.
#![tactic(auto)]

mod circuit;
mod laws;
mod name;
mod script;
mod work;

pub use laws::{accepted_is_not_refused, work_is_accepted};
pub use work::{Work, make};

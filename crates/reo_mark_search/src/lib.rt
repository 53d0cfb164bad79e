//! The search of a part by sets of marks alone, where each row lets each item in.
//!
//! At each end stands the set of the marks that it may still have. The search takes, at each place
//! of the key, the least number that is left, and narrows; it never goes back, and ends as soon as
//! one row is left at each side. It makes no tick.
#![tactic(auto)]

mod fixing;
mod found;
mod narrowing;
mod noting;
mod search;
mod searched;
mod seats;
mod spots;
mod taking;
mod walking;

pub use found::MarkFinding;
pub use search::MarkSearch;

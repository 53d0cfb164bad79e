//! The static rules on types: items whose types do not fit, and types and items out of bounds.
#![tactic(auto)]

mod cell;
mod channels;
mod exprs;
mod kinds;
mod known;
mod literals;
mod mistyped;
mod range;
mod scope;
mod scopes;
mod shapes;
mod trees;
mod types;

pub use mistyped::judge_mistyped;
pub use range::judge_range;

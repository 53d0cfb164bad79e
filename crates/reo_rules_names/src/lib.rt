//! The static rules on names: what stands twice, what is not declared, uses, ways, and ends.
#![tactic(auto)]

mod arity;
mod connectors;
mod dangling;
mod direction;
mod ends;
mod twice;
mod types;
mod unknown;

pub use arity::judge_arity;
pub use dangling::judge_dangling;
pub use direction::judge_direction;
pub use twice::judge_twice;
pub use unknown::judge_unknown;

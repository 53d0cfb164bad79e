//! The judgement of one round line: the plan that it shows, or what is wrong with it first; and of
//! an ending.

mod ending;
mod judging;
mod refusal;
mod rows;

pub use ending::{begins, ends_as};
pub use judging::{Stop, plan_of};
pub use refusal::refusal_of;

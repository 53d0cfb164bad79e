//! The values that are live in the open branches of a log.
#![tactic(auto)]

mod branches;
mod judged;
pub mod support;
mod table;
mod trail;
mod values;

pub use branches::{OpenBranch, Split};
pub use judged::Judged;
pub use support::{Column, LiveAt, has_support, is_flow_of, tables_of};
pub use trail::Gone;

//! The primitives of Reo circuits, by their literal tables.
#![tactic(auto)]

mod ends;
mod form;
mod given;
mod kind;
mod laws;
mod offer;
mod port;
mod primitive;
mod rule;
mod settle;
mod telling;

pub use kind::{FilterRule, Kind, MapRule, TakerPort, WriterPort};
pub use laws::classes_by_rule;
pub use reo_net_base::Branches;

//! The unfolding of a program: how much it comes to, and then its nodes and channels.
#![tactic(auto)]

mod counts;
mod exprs;
mod ground;
mod kinds;
mod local;
mod names;
mod types;
mod unfold;

pub use ground::{Ground, Stand, ground_of};
pub use types::{NamedTypes, kindred_of};
pub use unfold::{Unfolded, connector, connector_at};

//! A connector as a program holds it: opened from the text of its circuit, offered to at its ports,
//! and taken from round to round.
#![tactic(auto)]

mod connector;
mod items;
mod offers;
mod opening;
mod rounds;

pub use connector::{Connector, MOST_BYTES};
pub use items::ItemFault;

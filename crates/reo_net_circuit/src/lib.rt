//! Circuits: primitives and joints between their ends, checked when they are put together.
//!
//! The only way to a [`Circuit`] is [`Circuit::new`], which refuses an end that is not in exactly
//! one joint, a joint that goes the wrong way, and a directed cycle of sides. A circuit steps by a
//! colouring, and offers are placed at its ports and withdrawn from them.
#![tactic(auto)]

mod checked;
mod circuit;
mod ends;
mod fault;
mod flows;
pub mod found_ends;
mod groups;
mod layout;
mod parts;
mod ports;
mod rows;
mod step;
mod tables;
mod turn;
mod way;

pub use circuit::Circuit;
pub use fault::NetFault;
pub use flows::moves;
pub use found_ends::{Ends, ends_find_joints, ends_of, ends_stay};
pub use layout::SideOwner;
pub use parts::are_parts;
pub use step::chosen;

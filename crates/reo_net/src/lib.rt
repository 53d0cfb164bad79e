//! Circuits of primitives, and their colourings: what a caller of the net floor needs, in one
//! place.
//!
//! A [`Circuit`] is made from primitives and joints, or refused with a [`NetFault`]. Its colourings
//! are compared and filled, the first one is found, it steps by it, and its ports take offers.
#![tactic(auto)]

pub mod colouring;
mod plain;

pub use colouring::{are_moves, colour, compare, fill, fill_with, fits, is_colouring};
pub use plain::plain_first;
pub use reo_net_base::{
    Chosen, Colouring, End, Joint, Mark, Move, Offer, Port, Ported, Ports, Primitive, Way,
    marks_match,
};
pub use reo_net_circuit::{Circuit, NetFault, SideOwner, are_parts, moves};

//! What stands in a circuit: the primitives by their behaviour, the joints between their ends, and
//! what a colouring is.
#![tactic(auto)]

mod branches;
mod branching;
mod colouring;
mod form;
mod joint;
mod laws;
mod mark;
mod order;
mod port;
mod primitive;
mod table;

pub use branches::Branches;
pub use branching::beginning;
pub use colouring::{Chosen, Colouring, Move};
pub use form::Form;
pub use joint::{End, Joint};
pub use laws::{one_number_one_table, own_groups_are_groups};
pub use mark::{Mark, marks_match};
pub use order::{Sorted, cycle_by_sides, order_exists, order_has_no_cycle, order_or_cycle};
pub use port::{Offer, Port, Ported, Ports, Restoring, Way};
pub use primitive::Primitive;
pub use table::Table;

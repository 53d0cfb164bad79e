//! What programs of the second version stand for, and what is refused in them.

mod bound;
mod fault;
mod laws;
mod lifting;

pub use bound::{Bound, Instance};
pub use fault::ExpandFault;
pub use laws::{lifted_is_walked, lifted_stands_for_itself};
pub use lifting::lift;

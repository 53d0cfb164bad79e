//! Parts in which nothing flows, first assignments of parts put together, and weights of parts
//! where a circuit changes elsewhere. Each function is empty: its contract is a law.

mod joining;
mod still;
mod weighing;

pub use joining::parts_make_first;
pub use still::{parts_without_items_are_still, still_parts_have_no_items, still_parts_stay_first};
pub use weighing::alike_parts_weigh_alike;

//! Values and items at joints, as mathematics: which values the rows of sides support, assignments
//! by values, and which items can stand. Each function is empty or calls laws: its contract is a
//! law.
#![tactic(auto)]

mod standing;
mod ties;
mod uses;
mod value;

pub use standing::{items_can_stand, possible_items_are_closed, possible_items_are_least};
pub use ties::{assignments_are_choices, choices_are_assignments, first_by_values};
pub use uses::{narrowed_is_greatest, thinning_keeps_use, use_is_by_rows};
pub use value::JointValue;

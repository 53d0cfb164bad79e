//! Widths, weights and budgets of the parts of a circuit, as mathematics, and what is said of one
//! that exceeds them. Each function is empty: its contract is a law.
#![tactic(auto)]

mod bounds;
mod exceeds;
mod fewer;
mod numbers;
mod over;
pub mod still;
mod weights;

pub use bounds::{bounded_parts_are_within, few_items_stand, weight_is_at_most};
pub use exceeds::Exceeds;
pub use fewer::{fewer_rows_stay_within, fewer_rows_weigh_no_more};
pub use numbers::numbers_are_one;
pub use over::{cause_is_one, causes_are_small, over_is_decided, within_is_not_over};
pub use still::{
    alike_parts_weigh_alike, parts_make_first, parts_without_items_are_still,
    still_parts_have_no_items, still_parts_stay_first,
};
pub use weights::{loopless_parts_weigh_one, weight_exists, weight_is_one, weight_is_small};

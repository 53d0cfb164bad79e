//! The items that can stand at each joint of a circuit in its present state.
//!
//! The items that can stand at joints are the least sets with these two properties, for each row
//! but the jam rows and each end by which an item flows out of its primitive. An item that the row
//! gives there by the state alone, as an offered item or the front of a buffer, can stand at the
//! joint of the end. And where an item can stand at the joint that decides what the row gives, and
//! the row lets it in, the item that the row gives for it can stand at the joint of the end.
//!
//! A joint may be marked as wide, and only where more than 256 items can stand. A joint is clear
//! where it is not wide and no directed path leads to it from a wide joint. The list of a clear
//! joint is exactly the items that can stand there, each once. A joint where more than 256 items
//! can stand is not clear. Of the list of a joint that is not clear no more is said than that its
//! items can stand there, and that none stands twice. No list has more than 257 items.
#![tactic(auto)]

mod giving;
mod laws;
mod rows;
mod stock;
mod supply;
mod visits;

pub use laws::{many_are_not_clear, parts_are_in_order, parts_are_told, reached_stay};
pub use supply::Supply;
pub use visits::{reach, reach_at};

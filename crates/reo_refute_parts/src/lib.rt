//! Parts of the judge of logs: lines, lists of items, and places of keys.
#![tactic(auto)]

mod lines;
pub mod lists;
mod places;

pub use lines::{line, put_line};
pub use lists::item_lists;
pub use places::{AllowedRows, Number, SidePlace, key_places};

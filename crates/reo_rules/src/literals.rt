//! Literals, and the items that they stand for.

mod items;

pub use items::{is_item_of, item_of, items_of, place_of};

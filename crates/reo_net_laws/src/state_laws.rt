//! Laws of plans that are kept by the state of a part. Each function is empty: its contract is a
//! law.

mod states;
mod turns;
mod walks;

pub use states::{one_key_same_tables, open_parts_need_no_items, same_tables_same_rows};
pub use turns::{more_flow_is_no_later, one_class_stays_one};
pub use walks::walks_are_first;

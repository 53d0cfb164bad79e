//! Tables of a search that are kept, and made anew part by part.
#![tactic(auto)]

mod boards;
mod laws;
mod notes;
mod orders;
mod parts;
mod renewing;
mod tables;
mod values;

pub use laws::{
    orders_are_of_parts, orders_stay, ready_tables_are_right, right_parts_are_ready,
    right_tables_stay, room_stays,
};
pub use orders::orders_of;
pub use parts::renew_part;
pub use tables::SearchTables;

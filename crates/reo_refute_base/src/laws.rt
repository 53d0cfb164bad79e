//! Right logs show that no colouring stands before the given rows. Each function is empty or calls
//! laws: its contract is a law.

mod answers;
mod laws;

pub use answers::{item_lists_are_one, lines_are_told, one_wrong_line, right_or_wrong};
pub use laws::{
    branch_or_single, branches_are_read, fronts_are_read, items_are_listed, live_places_are_told,
    logs_exist, places_decide, right_logs_refute, support_is_told,
};

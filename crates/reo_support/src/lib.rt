//! Forest support: where loop joints have one value each, what rows support stands in assignments.
//! Each function is empty: its contract is a law.
#![tactic(auto)]

mod laws;

pub use laws::{forest_support, full_sets_stand, rows_stand, values_stand};

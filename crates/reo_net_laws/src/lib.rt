//! Laws over circuits and their colourings. Each function is empty: its contract is a law.
#![tactic(auto)]

mod colourings;
mod cycles;
mod ends;
mod first;
mod keys;
pub mod state_laws;

pub use colourings::{
    each_part, jam_is_colouring, jams_whole, mix_is_colouring, one_colouring_for_rows,
    parts_are_colouring, reasons_are_given,
};
pub use cycles::order_without_cycle;
pub use ends::{classes_differ, ends_are_joined, rows_differ, source_is_taken};
pub use first::{
    first_by_parts, first_exists, first_flows, first_inside, first_is_one, first_is_one_inside,
    first_jams_for_cause, firsts_agree, is_isolated, knot_jams_exactly, none_flows_more,
    part_jams_for_cause,
};
pub use keys::{
    all_sides_come_next, classes_always_lead, first_difference_decides, leading_come_first,
    part_keys,
};
pub use state_laws::{
    more_flow_is_no_later, one_class_stays_one, one_key_same_tables, open_parts_need_no_items,
    same_tables_same_rows, walks_are_first,
};

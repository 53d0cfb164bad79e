//! Laws of what kinds keep between rounds, of turns, and of filters and maps. Each function is
//! empty: its contract is a law.
#![tactic(auto)]

mod laws;
mod move_laws;

pub use laws::{
    buffers_keep_order, ends_flow_while_they_can, filters_choose_once, filters_pass_what_is_true,
    first_in_first_out, maps_give_values, quotas_count_down, shifts_lose_fronts, turns_are_fair,
    variables_hold,
};
pub use move_laws::{moves_are_flows, moves_are_offers};

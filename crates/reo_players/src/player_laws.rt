//! Laws of how components go through their actions. Each function is empty: its contract is a law.

mod laws;

pub use laws::{
    bounds_are_exact, done_stays_done, flow_moves_on, repeats_are_written_out,
    without_bound_it_waits,
};

//! Components in a run: how far each has come in its written-out list of actions, and what it
//! offers.
#![tactic(auto)]

mod counter;
mod latest;
mod laws;
mod live;
mod marks;
mod pacing;
mod player;
mod player_laws;
mod players;
mod step;

pub use laws::{offers_agree, stuck_is_not_done};
pub use player_laws::{
    bounds_are_exact, done_stays_done, flow_moves_on, repeats_are_written_out,
    without_bound_it_waits,
};
pub use players::{Players, Want};
pub use step::Step;

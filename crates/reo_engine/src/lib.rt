//! The engine: a circuit that takes offers at its ports and goes on round by round.
//!
//! A round is planned by `plan` and made by `commit`; `make_round` and `finish_round` do the same
//! at the cost of what flows. To make a round that was planned takes no memory, so it can always be
//! made. The rows of parts in which nothing changes are kept from round to round.
#![tactic(auto)]

mod beginning;
mod changes;
mod engine;
mod flows;
mod goers;
mod keeping;
mod laws;
mod made_round;
mod next;
mod offering;
mod offers;
mod planning;
mod renewing;
mod rounds;
mod stage;

pub use engine::Engine;
pub use laws::{made_rounds_are_rounds, plans_suit};
pub use reo_round::MadeRound;
pub use reo_rounds::{Declined, Done, Exceeds, OfferFault, Plan, PlannedRound};

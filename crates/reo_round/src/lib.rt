//! What stands for a round whose rows stand: the items at the joints that flow, and what moves at
//! ports.
#![tactic(auto)]

mod copies;
mod feeds;
mod filling;
mod giving;
mod laws;
mod made_round;
mod moving;

pub use feeds::Feeds;
pub use laws::{feeds_are_one, feeds_stay};
pub use made_round::{MadeRound, Sheet, blank, cleared, make_round};

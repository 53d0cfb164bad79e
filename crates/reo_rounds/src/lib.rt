//! What an engine answers, and what a round is.
#![tactic(auto)]

mod laws;
mod offer;
mod plain;
mod plan;
mod planning;
mod stage;

pub use laws::{known_order, planned_rounds_are_made};
pub use offer::{Declined, OfferFault};
pub use plain::PlainStage;
pub use plan::{Done, Plan, PlannedRound};
pub use planning::{is_jammed, jammed_sides, plan_with};
pub use reo_weights::{Exceeds, Exceeds as PlanFault};
pub use stage::Stage;

//! What runs are, and what holds of them: laws, each an empty function whose contract is the law;
//! and the components of a run at the ports of its circuit.
#![tactic(auto)]

pub mod at_ports;
mod laws;
mod run_premises;
pub mod run_texts;
pub mod verdicts;

pub use at_ports::{Carried, advance_all, carry_out, known_moves, offer_all, over_after};
pub use laws::{one_trace, rounds_start, runs_are_justified, trace_exists};
pub use reo_rounds::known_order;
pub use run_premises::{flat_ports_fit, scripts_fit};
pub use run_texts::{ports_are_told, runs_are_trace_texts};
pub use verdicts::{
    Refusal, Verdict, one_verdict, refused_items_are_not_let_in, runs_are_verified, verified_says,
};

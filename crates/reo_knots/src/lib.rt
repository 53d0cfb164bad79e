//! The knots of a circuit: its sides by what joints link, and the joints that close loops.
#![tactic(auto)]

mod groups;
mod knots;
mod labels;
mod links;
mod numbers;

pub use knots::{Knots, find_knots};

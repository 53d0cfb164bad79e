//! The flat circuit of a program: the rules on its text, its unfolding, its joints.
#![tactic(auto)]

mod branches;
mod ends;
mod joints;
mod judging;
mod last;
mod main_ports;
mod nodes;
mod unfolded;
mod whole;

pub use last::Flat;
pub use reo_rules::FlatFault;
pub use whole::flatten;

//! What a program of version 2 stands for.
#![tactic(auto)]

mod base;
mod items;
mod laws;
mod parts;
mod programs;
mod tables;
mod uses;
pub mod walk;

pub use base::{Bound, ExpandFault, Instance, lift, lifted_is_walked, lifted_stands_for_itself};
pub use items::{Walk, copied_parameters, copied_type};
pub use laws::{expansions_are_few, expansions_are_spelled};
pub use parts::{
    Room, index_value, node_name, node_names, number_within, numbered_name, placed_name, used_name,
};
pub use programs::{expand, expanded_or_refused, one_expansion};
pub use tables::{FirstPlaces, Firsts};
pub use uses::Uses;

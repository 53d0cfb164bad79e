//! What a program unfolds to: its nodes and channels, its ends and joints, and its flat circuit.
#![tactic(auto)]

pub mod flatten_laws;
mod sizes;

pub use flatten_laws::{
    channels_are_kinds, circuits_are_made, circuits_are_small, counts_are_channels,
    ends_are_at_home, ends_are_joined, first_node_on_cycle, homes_are_nodes, homes_fit, homes_rise,
    inside_is_tested, joints_go_right, names_are_plain, nodes_are_distinct, nodes_are_known,
    nodes_are_served, nodes_have_types, ports_are_first, ports_differ, primitives_fit,
    types_are_valid,
};
pub use sizes::Sizes;

//! Laws of what programs unfold to. Each function is empty: its contract is a law.

mod channels;
mod circuits;
mod counts;
mod homes;
mod joints;
mod nodes;
mod ports;
mod texts;
mod types;

pub use channels::{channels_are_kinds, nodes_have_types, primitives_fit, types_are_valid};
pub use circuits::{circuits_are_made, circuits_are_small};
pub use counts::counts_are_channels;
pub use homes::{ends_are_at_home, first_node_on_cycle, homes_are_nodes, homes_fit, homes_rise};
pub use joints::{ends_are_joined, joints_go_right};
pub use nodes::{nodes_are_distinct, nodes_are_known, nodes_are_served};
pub use ports::{ports_are_first, ports_differ};
pub use texts::names_are_plain;
pub use types::inside_is_tested;

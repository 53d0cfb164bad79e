//! What the walk of an expansion looks up: values of indexes, names with places and numbers.

mod names;
mod refs;
mod room;
mod values;

pub use names::{numbered_name, placed_name};
pub use refs::{node_name, node_names, number_within, used_name};
pub use room::Room;
pub use values::index_value;

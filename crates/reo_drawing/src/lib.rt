//! Pictures of circuits, as texts that Graphviz draws: a line for each node, each primitive and
//! each joint. What is shown of a round is a mark for each end, an item for each joint, and which
//! primitives lose an item.
#![tactic(auto)]

mod joint;
mod label;
mod label_texts;
mod marks;
mod picture;
mod strand;
mod vertex;

pub use label_texts::{append_expr, append_item, append_label, labels_stay_shut};
pub use marks::JointMarks;
pub use picture::{Scene, picture_text};

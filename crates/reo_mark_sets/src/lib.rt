//! Sets of the marks that the ends of sides may still have, and their narrowing, side by side.
#![tactic(auto)]

mod choosing;
mod classing;
mod fixed;
mod forms;
mod line;
mod listed;
mod marks;
mod narrowing;
mod sets;
mod stars;
mod tallies;

pub use forms::is_usual;
pub use marks::PlainMarks;
pub use sets::MarkSets;

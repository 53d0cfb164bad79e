//! Arrows between numbered sides: an order in which each arrow stands behind those that feed it, or
//! the least arrow on a directed cycle.
//!
//! A graph is two lists of equal length: arrow `j` goes from side `from[j]` to side `to[j]`, and
//! feeds the arrows that start at side `to[j]`. What the sides stand for is the caller's matter.

mod cycle;
mod laws;
mod links;
mod ordering;
mod queue;
mod sort;

pub use laws::{cycle_by_sides, order_exists, order_has_no_cycle};
pub use ordering::{Sorted, order_or_cycle};

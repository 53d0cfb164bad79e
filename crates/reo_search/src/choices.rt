//! The first assignment of a knot, over the values that its loop joints can have.

mod best;
mod choices;
mod kept;
mod knot_search;
mod trying;
mod weighing;

pub(crate) use choices::first_over;
pub(crate) use knot_search::KnotSearch;
pub(crate) use weighing::{narrow_all, weight_of};

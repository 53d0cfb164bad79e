//! Finds the next line of a branch of a log.

mod going;
mod joint;
mod looking;
mod next;
mod values;

pub(crate) use joint::line_at_side;
pub(crate) use looking::has_two;
pub(crate) use next::next_line;
pub(crate) use values::after;

//! Which rows of a side work, and which values they use.
#![tactic(auto)]

mod basis;
mod flags;
mod flowing;
mod flows;
mod groups;
mod items;
mod lists;
mod marks;
mod resting;
mod rows;
mod seeing;
mod sifting;
mod standing;
mod usage;

pub use basis::Basis;
pub use flags::RowFlags;
pub use groups::{Group, Odd};
pub use marks::{FLOWS, mark_seen, marks_left};
pub use rows::{Rows, all_rows};
pub use seeing::see;
pub use sifting::sift;
pub use standing::can_stay;
pub use usage::{is_used, used_marks};

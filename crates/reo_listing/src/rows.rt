//! The lists of marks that the ports of one part of an open circuit have.

mod adding;
mod holding;
mod lookups;
mod meeting;
mod part;
mod searching;
mod walking;

pub use lookups::Lookups;
pub use part::rows_of;

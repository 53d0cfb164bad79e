//! Reading the items of connectors in texts of version 2.

mod bodies;
mod channels;
mod indexes;
mod loops;
mod nodes;
mod stateful;
mod uses;

pub use bodies::items;

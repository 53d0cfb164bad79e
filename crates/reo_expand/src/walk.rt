//! The walk of items of version 2, as they are expanded.

mod walk;

pub use walk::items;

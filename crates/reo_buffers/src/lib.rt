//! Buffers of items, from which the item that came first is taken first.
#![tactic(auto)]

mod buffer;

pub use buffer::Buffer;

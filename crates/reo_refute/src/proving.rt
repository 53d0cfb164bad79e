//! Makes logs that show that rows are those of first colourings.

mod beside;
mod branch;
mod draft;
mod going;
mod kinds;
mod making;
mod needed;
mod outward;
mod parts;
mod reasons;
mod scratch;

pub use making::prove;

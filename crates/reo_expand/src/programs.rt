//! What a program of version 2 stands for.

mod behind;
mod copying;
mod expanding;
mod families;
mod laws;
mod noting;
mod turned;

pub use expanding::expand;
pub use laws::{expanded_or_refused, one_expansion};

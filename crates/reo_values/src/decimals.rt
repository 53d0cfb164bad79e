//! Decimal numbers at the front of a text.

mod number;

pub use number::{digits_length, number_of};

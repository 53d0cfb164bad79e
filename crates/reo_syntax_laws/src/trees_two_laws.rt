//! Laws of what texts of version 2 say. Each function is empty: its contract is a law.

mod laws;

pub use laws::programs_two_are_spelled;

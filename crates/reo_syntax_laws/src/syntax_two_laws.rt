//! Laws of canonical texts of version 2. Each function is empty: its contract is a law.

mod laws;

pub use laws::canonical_text_two_says_the_program;

//! Laws of answers to circuit texts of either version. Each function is empty: its contract is a
//! law.

mod laws;

pub use laws::{first_texts_mean_what_they_meant, second_texts_are_refused};

//! Reading circuit texts.
#![tactic(auto)]

mod channels;
mod fault;
mod items;
pub mod items_two;
mod laws;
mod levels;
mod programs;
mod texts;
pub mod two;
mod two_laws;

pub use channels::{held, held_list, is_plain, plain_channel};
pub use fault::ParseFault;
pub use laws::each_text_is_answered;
pub use programs::{is_declaration, parameters};
pub use texts::parse;
pub use two::{each_text_of_any_is_answered, parse_any};
pub use two_laws::{first_texts_mean_what_they_meant, second_texts_are_refused};

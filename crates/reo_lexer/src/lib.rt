//! Tokens of a text.
#![tactic(auto)]

mod bytes;
mod front;
mod laws;
mod lexer;
mod parts;
mod token;
mod words;

pub use laws::{
    each_text_is_read, one_reading, real_tokens_follow, refusals_of_texts, tokens_of_front,
};
pub use lexer::lex;
pub use reo_grammar::TokenKind;
pub use token::{LexFault, Token};

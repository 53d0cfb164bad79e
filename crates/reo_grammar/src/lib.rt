//! Grammars over tokens, as data: what a grammar says of a list of tokens, how it is read with one
//! token of sight, and the laws that hold for every grammar.
#![tactic(auto)]

mod kind;
mod language;

pub use kind::TokenKind;
pub use language::{
    Language, one_answer, one_tree, reading_is_exact, refusal_is_exact, refusal_of_front,
    same_with_other_lines,
};

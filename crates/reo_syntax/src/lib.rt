//! The canonical text of a circuit program.
#![tactic(auto)]

mod bytes;
mod item;
mod laws;
mod literal;
mod program;
mod spread;
mod term;
pub mod two;
mod type_term;

pub use item::{append_head, append_tail};
pub use laws::canonical_text_says_the_program;
pub use program::{append_parameters, print};
pub use reo_trees::{
    Binary, Channel, Circuits, Connector, Constant, Declaration, Item, ItemForm, Literal,
    LiteralPair, Opened, Parameter, Program, Shape, Term, TermForm, TermPair, TermTriple, TypePair,
    TypeTerm, Unary, one_program,
};
pub use spread::append_comma;
pub use two::print_two;
pub use type_term::append_type;

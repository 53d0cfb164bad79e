//! The trees of circuit texts, and the grammar that says which text stands for which tree.
#![tactic(auto)]

mod channel_copies;
mod circuits;
mod circuits_two;
mod indexes;
mod items;
mod items_two;
mod laws;
mod literal_copies;
mod literals;
pub mod loops;
mod programs;
mod programs_two;
mod term_copies;
mod terms;
mod type_copies;
mod types;

pub use circuits::Circuits;
pub use circuits_two::CircuitsTwo;
pub use indexes::{Index, IndexUnit, Ref, SignedUnit};
pub use items::{Channel, Item, ItemForm};
pub use items_two::{FormTwo, ItemTwo};
pub use laws::{one_program, one_program_of_any};
pub use literals::{Constant, Literal, LiteralPair};
pub use loops::{loops_by_last_tokens, loops_by_trees};
pub use programs::{Connector, Declaration, Parameter, Program};
pub use programs_two::{AnyProgram, ConnectorTwo, DeclarationTwo, ProgramTwo};
pub use reo_values::{Binary, Unary};
pub use terms::{Opened, Term, TermForm, TermPair, TermTriple};
pub use types::{Shape, TypePair, TypeTerm};

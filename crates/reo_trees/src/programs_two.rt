//! Whole circuit texts of version 2.
use crate::{ItemTwo, Parameter, Program, TypeTerm};
use reo_values::{Bytes, List};

/// A circuit text of either version.
#[derive(Drop)]
pub enum AnyProgram {
    One(Program),
    Two(ProgramTwo),
}

/// A circuit text of version 2.
#[derive(Drop)]
pub struct ProgramTwo {
    pub declarations: List<DeclarationTwo>,
}

/// A declaration of a text.
#[derive(Drop)]
pub enum DeclarationTwo {
    /// `type name = term;`.
    Named {
        /// The line of its first token.
        line: u32,
        name: Bytes,
        term: TypeTerm,
    },
    /// A connector.
    Made(ConnectorTwo),
}

/// A connector: its number, if it has one, its ports and what stands between them.
#[derive(Drop)]
pub struct ConnectorTwo {
    /// The line of its first token.
    pub line: u32,
    pub name: Bytes,
    /// The name of its number, in `connector name<number>(..)`.
    pub number: Option<Bytes>,
    pub parameters: List<Parameter>,
    pub items: List<ItemTwo>,
}

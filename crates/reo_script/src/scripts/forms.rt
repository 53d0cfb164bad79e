//! Scripts as they are written.
use reo_trees::Literal;
use reo_values::{Bytes, List};

/// A component as it is written. Its name is a label; two may be equal.
#[derive(Drop)]
pub struct ComponentForm {
    pub name: Bytes,
    pub actions: List<ActionForm>,
}

/// An action as it is written, with the names of ports. A line is that of its first token.
#[cycle(form)]
#[derive(Drop)]
pub enum ActionForm {
    /// `write port literal within rounds;`
    Write {
        line: u32,
        port: Bytes,
        literal: Literal,
        within: Option<u32>,
    },
    /// `take port within rounds;`
    Take {
        line: u32,
        port: Bytes,
        within: Option<u32>,
    },
    /// `pause rounds;`
    Pause {
        rounds: u32,
    },
    /// `repeat times { .. }`
    Repeat {
        times: u32,
        body: List<ActionForm>,
    },
}

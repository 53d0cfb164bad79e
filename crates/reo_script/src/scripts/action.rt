//! Scripts, components and actions.
use reo_values::{Bytes, List, Value};

/// The components of a system, in the order of their text.
#[derive(Drop)]
pub struct Script {
    pub components: List<Component>,
}

/// A component: its name is a label, and it does its actions in order.
#[derive(Drop)]
pub struct Component {
    pub name: Bytes,
    pub actions: List<Action>,
}

/// What a component does. Ports are numbered from 0.
#[cycle(action)]
#[derive(Drop)]
pub enum Action {
    /// Offers to write an item, until it flows or a bound of 1 to 10^9 rounds runs out.
    Write {
        port: usize,
        item: Value,
        within: Option<u32>,
    },
    /// Offers to take an item, until one flows or a bound of 1 to 10^9 rounds runs out.
    Take {
        port: usize,
        within: Option<u32>,
    },
    /// Offers nothing for so many rounds, 1 to 10^9.
    Pause {
        rounds: u32,
    },
    /// Does the actions of the body so many times, 0 to 10^9.
    Repeat {
        times: u32,
        body: List<Action>,
    },
}

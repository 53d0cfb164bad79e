//! The items of connectors in texts of version 2.
use crate::{Channel, Index, Ref, TypeTerm};
use reo_values::{Bytes, List};

/// An item of a connector.
#[cycle(item_two)]
#[derive(Drop)]
pub struct ItemTwo {
    /// The line of its first token.
    pub line: u32,
    pub form: FormTwo,
}

/// What an item is.
#[cycle(item_two)]
#[derive(Drop)]
pub enum FormTwo {
    /// `node name: term;`, or `node name.(size): term;`.
    Node {
        name: Bytes,
        size: Option<Index>,
        term: TypeTerm,
    },
    /// A channel between two nodes.
    Joined {
        channel: Channel,
        first: Ref,
        second: Ref,
    },
    /// `use name(..);`, or `use name<number>(..);`.
    Used {
        name: Bytes,
        number: Option<Index>,
        arguments: List<Ref>,
    },
    /// `for variable = low to high { .. }`. No node stands in it.
    Loop {
        variable: Bytes,
        low: Index,
        high: Index,
        items: List<ItemTwo>,
    },
}

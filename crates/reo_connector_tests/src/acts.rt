//! What is done with a connector, step by step.
use crate::offers::{are_moves, are_written, is_answered};
use reo_connector::{Connector, ItemFault};
use reo_net_base::Way;
use reo_rounds::{Done, Exceeds, OfferFault};
use reo_values::{NoMemory, Value};
use std::alloc::Global;

/// What flows, each the port and the number; whether nothing flows; and how many sides jam.
pub type Shown = (&'static [(usize, i64)], bool, usize);

/// What is done, and what comes of it.
#[derive(Clone, Copy)]
pub enum Act {
    /// The port of a number has this name and this way.
    Named(usize, &'static [u8], Way),
    /// The number of the port of a name.
    Port(&'static [u8], Option<usize>),
    /// A text at a port is that of an item, or of none.
    Item(usize, &'static [u8], bool),
    /// The text at a port of a number.
    Text(usize, i64, &'static [u8]),
    /// A write of this number at a port, or a take: it is taken, or declined for this cause.
    Offer(usize, Option<i64>, Option<OfferFault>),
    /// At each port before this one its own number is written.
    WriteAll(u32),
    /// Whether an offer was there to be taken back.
    Withdraw(usize, bool),
    /// A round within a budget, or why there is none, and how many rounds were made then.
    Round(u64, Result<Shown, Exceeds>, u64),
}

/// Whether the port of a number has this name and this way.
fn is_named(held: &Connector, port: usize, name: &[u8], way: Way) -> bool {
    match held.ports().list.get(port) {
        Some(port) => port.name.as_slice() == name && port.way == way,
        None => false,
    }
}

/// Whether an item has this text at a port.
fn has_text(alloc: Global, held: &Connector, port: usize, item: &Value, text: &[u8]) -> bool {
    match held.text(alloc, port, item) {
        Ok(found) => found.as_slice() == text,
        Err(NoMemory) => false,
    }
}

/// Whether a text at a port is that of an item, or of none.
fn is_item(alloc: Global, held: &Connector, port: usize, text: &[u8], answer: bool) -> bool {
    match held.item(alloc, port, text) {
        Ok(item) => answer && has_text(alloc, held, port, &item, text),
        Err(fault) => !answer && fault == ItemFault::NoItem,
    }
}

/// Whether this was done in a round, or this is why there was none.
fn shows(made: &Result<Done, Exceeds>, want: Result<Shown, Exceeds>) -> bool {
    match (made, want) {
        (Ok(done), Ok((moves, idle, jammed))) => {
            are_moves(done.moves.as_slice(), moves) && done.idle == idle && done.jammed == jammed
        }
        (Err(fault), Err(want)) => *fault == want,
        _ => false,
    }
}

/// Whether a round comes to this.
fn is_made(alloc: Global, held: &mut Connector, budget: u64, want: Result<Shown, Exceeds>) -> bool {
    if 1_000_000_000 < budget || 1_000 < held.rounds() {
        return false;
    }
    let made = held.round(alloc, budget);
    shows(&made, want)
}

/// Does one act, and answers whether all is as it tells.
fn is_right(alloc: Global, held: &mut Connector, act: &Act) -> bool {
    match *act {
        Act::Named(port, name, way) => is_named(held, port, name, way),
        Act::Port(name, port) => held.port(name) == port,
        Act::Item(port, text, answer) => is_item(alloc, held, port, text, answer),
        Act::Text(port, number, text) => has_text(alloc, held, port, &Value::Int(number), text),
        Act::Offer(port, number, cause) => is_answered(held, port, number, cause),
        Act::WriteAll(ports) => are_written(held, ports),
        Act::Withdraw(port, answer) => held.withdraw(port) == answer,
        Act::Round(budget, want, rounds) => {
            is_made(alloc, held, budget, want) && held.rounds() == rounds
        }
    }
}

/// Does all acts, and answers whether all is as they tell.
pub fn are_right(alloc: Global, held: &mut Connector, acts: &[Act]) -> bool {
    for act in acts {
        if !is_right(alloc, held, act) {
            return false;
        }
    }
    true
}

//! What texts come to when they are opened.
use crate::acts::{Act, are_right};
use reo_command::{Role, Stop};
use reo_connector::Connector;
use std::alloc::Global;

/// What a text comes to.
#[derive(Clone, Copy)]
pub enum Want<'a> {
    /// It is a circuit, whose connector acts so from its first round on.
    Acts(&'a [Act]),
    /// It is refused with this line and these words.
    Refused(Option<u32>, &'a [u8]),
    /// It is too long.
    TooLong,
}

/// Whether a connector that was opened acts so.
fn acts(alloc: Global, held: &mut Connector, want: Want<'_>) -> bool {
    match want {
        Want::Acts(acts) => held.rounds() == 0 && are_right(alloc, held, acts),
        _ => false,
    }
}

/// Whether a text that was not opened is refused so.
fn is_refused(stop: &Stop, want: Want<'_>) -> bool {
    match (stop, want) {
        (Stop::Refused(Role::Circuit, refusal), Want::Refused(line, words)) => {
            refusal.line == line && refusal.words.as_slice() == words
        }
        (Stop::TooLong(Role::Circuit), Want::TooLong) => true,
        _ => false,
    }
}

/// Whether a text comes to this.
pub fn is_so(alloc: Global, text: &[u8], want: Want<'_>) -> bool {
    match Connector::open(alloc, text) {
        Ok(held) => {
            let mut held = held;
            let answer = acts(alloc, &mut held, want);
            held.close();
            answer
        }
        Err(stop) => is_refused(&stop, want),
    }
}

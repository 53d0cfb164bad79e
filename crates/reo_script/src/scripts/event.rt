//! Events: what one line says, as it is written and for the ports of a circuit.
ghost use Rattle.std.specs.Prelude.{◌≡◌};

use reo_trees::Literal;
use reo_values::{Bytes, NoMemory, Value};
use std::fmt::{self, Debug, Display, Formatter};
use thiserror::Error;

/// An event as it is written, with the name of a port.
#[derive(Drop)]
pub enum EventForm {
    /// No token.
    Nothing,
    /// `write port literal`
    Write { port: Bytes, literal: Literal },
    /// `take port`
    Take { port: Bytes },
    /// `withdraw port`
    Withdraw { port: Bytes },
    /// `round`
    Round,
    /// `end`
    End,
}

/// An event. Ports are numbered from 0.
#[derive(Drop)]
pub enum Event {
    /// A line without tokens, which is no event.
    Nothing,
    /// An offer to write an item.
    Write { port: usize, item: Value },
    /// An offer to take an item.
    Take { port: usize },
    /// The offer at a port is gone.
    Withdraw { port: usize },
    /// One round.
    Round,
    /// Nothing further is judged.
    End,
}

/// Why a line is refused.
#[derive(Drop, Error)]
pub enum EventFault {
    /// The line has no tokens for its bytes, or they say no event, or one that is too deep.
    #[error("form")]
    Form,
    /// No port has the name.
    #[error("port")]
    NoPort,
    /// A write at an `out` port, or a take at an `in` port.
    #[error("way")]
    WrongWay,
    /// The literal is no item of the type of this port.
    #[error("outside")]
    ItemOutside { port: usize },
    /// Out of memory.
    #[error("no memory")]
    NoMemory,
}

impl From<NoMemory> for EventFault {
    ghost use Rattle.reo_script.specs.declared.scripts.event.EventFault.TheVariants.{NoMemory as OutOfMemory};

    ghost from_gives = { λ _ e. e ≡ OutOfMemory };

    fn from(_: NoMemory) -> Self {
        EventFault::NoMemory
    }
}

impl Debug for EventFault {
    fn fmt<W: fmt::Write>(&self, f: &mut Formatter<W>) -> fmt::Result {
        Display::fmt(self, f)
    }
}

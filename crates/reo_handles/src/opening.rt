//! Opening a connector from the text of its circuit.
ghost use Rattle.std.specs.Prelude.{◌≡◌, IfOk, IfSome, None};
ghost use Rattle.reo_command.specs.Refusals.{refusal_text};
ghost use Rattle.reo_handles.specs.Opening.{IsHeld, IsRefusalLaid, IsStopped, Opens, fresh};

use crate::closing::close;
use crate::handle::{Handle, put};
use crate::session::Session;
use crate::status::CallStatus;
use crate::texts::lay;
use reo_command::{Refusal, Stop, append_refusal};
use reo_connector::Connector;
use reo_values::{Bytes, NoMemory};
use std::alloc::Global;

/// The line and the words of a refusal. `NoMemory` is out of memory.
fn refusal_text(alloc: Global, refusal: &Refusal) -> Result<Bytes, NoMemory>
    ensures { IfOk result (λ text. text ≡ refusal_text refusal.now) }
{
    let mut text = Bytes::new(alloc);
    append_refusal(alloc, &mut text, refusal)?;
    Ok(text)
}

/// A session with a connector that has made no round. `None` is out of memory.
fn begun(alloc: Global, connector: Connector) -> Option<Box<Session>>
    ensures { IfSome result (λ session. session.value ≡ fresh connector) }
{
    let session = Session {
        connector,
        done: None,
    };
    Box::new(alloc, session).ok()
}

/// Holds a connector in a handle that has none.
fn hold(alloc: Global, handle: &mut Handle, connector: Connector) -> CallStatus
    requires { handle.old.place.session ≡ None }
    ensures { IsHeld connector handle.new.place.session result }
{
    match begun(alloc, connector) {
        Some(session) => {
            put(handle, session);
            CallStatus::Done
        }
        None => CallStatus::NoMemory,
    }
}

/// Lays the line and the words of a refusal into a room, as far as they fit.
fn lay_refusal(alloc: Global, refusal: &Refusal, room: &mut [u8], length: &mut usize) -> CallStatus
    ensures { IsRefusalLaid refusal.now (record { bytes = room.old; length = length.old })
        (record { bytes = room.new; length = length.new }) result }
{
    match refusal_text(alloc, refusal) {
        Ok(words) => {
            *length = lay(room, words.as_slice());
            CallStatus::Refused
        }
        Err(_) => CallStatus::NoMemory,
    }
}

/// Why a circuit text says no circuit.
fn stopped(alloc: Global, stop: Stop, room: &mut [u8], length: &mut usize) -> CallStatus
    ensures { IsStopped stop (record { bytes = room.old; length = length.old })
        (record { bytes = room.new; length = length.new }) result }
{
    match stop {
        Stop::Refused(_, refusal) => lay_refusal(alloc, &refusal, room, length),
        Stop::TooLong(_) => CallStatus::TooLong,
        _ => CallStatus::NoMemory,
    }
}

/// Closes what is open in a handle, and opens the connector that a circuit text says. `Refused`:
/// the text says no circuit; the line and the words of the cause are laid into the room, as far as
/// they fit, and `length` becomes their length. `TooLong`: the text has more than 1,048,576 bytes.
/// Nothing is open then.
pub fn open(
    alloc: Global,
    handle: &mut Handle,
    text: &[u8],
    room: &mut [u8],
    length: &mut usize,
) -> CallStatus
    ensures { Opens text.now (record { bytes = room.old; length = length.old })
        (record { bytes = room.new; length = length.new }) handle.new.place.session result }
{
    close(alloc, handle);
    match Connector::open(alloc, text) {
        Ok(connector) => hold(alloc, handle, connector),
        Err(stop) => stopped(alloc, stop, room, length),
    }
}

//! What moved in the round that was made last.
ghost use Rattle.std.specs.Prelude.{◌≡◌, option_copied};
ghost use Rattle.reo_handles.specs.Moves.{Moved, TellsItem, move_in};
ghost use Rattle.reo_handles.specs.Statuses.{AtOpen};

use crate::handle::{Handle, put, taken};
use crate::session::Session;
use crate::status::CallStatus;
use crate::texts::lay;
use reo_net_base::Move;
use std::alloc::Global;

/// A move of the last round.
fn move_of(session: &Session, index: usize) -> Option<&Move>
    ensures { option_copied result ≡ move_in session.now.done index }
{
    match &session.done {
        Some(done) => done.moves.get(index),
        None => None,
    }
}

/// Tells at which port a move was.
fn moved(session: &Session, index: usize, port: &mut usize) -> CallStatus
    ensures { Moved index port.old port.new session.now session.now result }
{
    match move_of(session, index) {
        Some(one) => {
            *port = one.port;
            CallStatus::Done
        }
        None => CallStatus::NoMove,
    }
}

/// Tells at which port the move of an index was, in the round that was made last: `port` becomes
/// its number. Moves count from 0, in the order of their ports. `NoMove`: there is none of this
/// index.
pub fn moved_open(alloc: Global, handle: &mut Handle, index: usize, port: &mut usize) -> CallStatus
    ensures { AtOpen (Moved index port.old port.new)
        handle.old.place.session handle.new.place.session result }
{
    let Some(session) = taken(alloc, handle) else {
        return CallStatus::Closed;
    };
    let status = moved(&session, index, port);
    put(handle, session);
    status
}

/// Tells the text of a move's item.
fn item(
    session: &Session,
    alloc: Global,
    index: usize,
    room: &mut [u8],
    length: &mut usize,
) -> CallStatus
    ensures { TellsItem index (record { bytes = room.old; length = length.old })
        (record { bytes = room.new; length = length.new }) session.now session.now result }
{
    let Some(one) = move_of(session, index) else {
        return CallStatus::NoMove;
    };
    match session.connector.text(alloc, one.port, &one.item) {
        Ok(text) => {
            *length = lay(room, text.as_slice());
            CallStatus::Done
        }
        Err(_) => CallStatus::NoMemory,
    }
}

/// Lays the text of a move's item into a room, as far as it fits, as traces write it: `length`
/// becomes the length of the whole text. `NoMove`: there is no move of this index.
pub fn item_open(
    alloc: Global,
    handle: &mut Handle,
    index: usize,
    room: &mut [u8],
    length: &mut usize,
) -> CallStatus
    ensures { AtOpen (TellsItem index (record { bytes = room.old; length = length.old })
        (record { bytes = room.new; length = length.new }))
        handle.old.place.session handle.new.place.session result }
{
    let Some(session) = taken(alloc, handle) else {
        return CallStatus::Closed;
    };
    let status = item(&session, alloc, index, room, length);
    put(handle, session);
    status
}

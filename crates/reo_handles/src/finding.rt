//! Ports by their names.
ghost use Rattle.reo_handles.specs.Ports.{Finds};
ghost use Rattle.reo_handles.specs.Statuses.{AtOpen};

use crate::handle::{Handle, put, taken};
use crate::session::Session;
use crate::status::CallStatus;
use std::alloc::Global;

/// Finds the port of a name.
fn find(session: &Session, name: &[u8], port: &mut usize) -> CallStatus
    ensures { Finds name.now port.old port.new session.now session.now result }
{
    match session.connector.port(name) {
        Some(found) => {
            *port = found;
            CallStatus::Done
        }
        None => CallStatus::NoPort,
    }
}

/// Finds the port of a name: `port` becomes its number. `NoPort`: no port has it.
pub fn find_open(alloc: Global, handle: &mut Handle, name: &[u8], port: &mut usize) -> CallStatus
    ensures { AtOpen (Finds name.now port.old port.new)
        handle.old.place.session handle.new.place.session result }
{
    let Some(session) = taken(alloc, handle) else {
        return CallStatus::Closed;
    };
    let status = find(&session, name, port);
    put(handle, session);
    status
}

//! Handles: what C holds of a connector.
ghost use Rattle.std.specs.Prelude.{◌≡◌, ◌↔◌, IfSome, IsSome, IsTrue, None, Some};

use crate::place::SessionPlace;
use crate::session::Session;
use std::alloc::Global;
use std::mem::replace;

/// What C holds of a connector, or of none: all of its bytes are zero where it holds none.
#[repr(C)]
#[derive(Drop)]
pub struct Handle {
    full: bool,
    place: SessionPlace,
    ghost fits: { IsTrue full ↔ IsSome place.session },
}

/// A handle of nothing.
pub fn nothing() -> Handle
    ensures { result.place.session ≡ None }
{
    Handle {
        full: false,
        place: SessionPlace::nowhere(),
    }
}

/// A handle of a session.
fn held(session: Box<Session>) -> Handle
    ensures { result.place.session ≡ Some session.value }
{
    Handle {
        full: true,
        place: SessionPlace::of(session),
    }
}

/// Takes the session out of a handle, if it has one.
pub(crate) fn taken(alloc: Global, handle: &mut Handle) -> Option<Box<Session>>
    ensures out { handle.new.place.session ≡ None }
    ensures some { IfSome result (λ session. handle.old.place.session ≡ Some session.value) }
    ensures none { result ≡ None → handle.old.place.session ≡ None }
{
    let Handle { full, place } = replace(handle, nothing());
    if full {
        Some(place.into_session(alloc))
    } else {
        None
    }
}

/// Puts a session into a handle that has none.
pub(crate) fn put(handle: &mut Handle, session: Box<Session>)
    requires { handle.old.place.session ≡ None }
    ensures { handle.new.place.session ≡ Some session.value }
{
    *handle = held(session);
}

//! Where a session lies, as C holds it.
ghost use Rattle.std.specs.Prelude.{◌≡◌, Option, Some, None, IsSome};
ghost use Rattle.std.specs.Coded.{coded_option};
ghost use Rattle.reo_handles.specs.declared.session.Session.{Session};
ghost use Rattle.reo_handles.specs.contracts.session.Session.{the_row as session_row};
ghost use Rattle.reo_handles.specs.Owned.{owned};

use crate::session::Session;
use std::alloc::Global;
use std::marker::Model;

/// Where a session lies, or nowhere.
#[repr(C)]
#[derive(Drop)]
pub struct SessionPlace {
    at: *mut u8,
    pub ghost session: { Option Session } by { coded_option session_row.coded },
}

impl Model for SessionPlace {
    ghost also_owns = { λ p. owned p.at p.session };
}

impl SessionPlace {
    /// No place.
    pub fn nowhere() -> SessionPlace
        ensures { result.session ≡ None }
    {
        SessionPlace {
            at: std::ptr::null_mut(),
        }
    }

    /// The place of a session.
    pub fn of(session: Box<Session>) -> SessionPlace
        ensures { result.session ≡ Some session.value }
    {
        let at = Box::into_raw(session);
        SessionPlace { at: at as *mut u8 }
    }

    /// The session again.
    pub fn into_session(self, alloc: Global) -> Box<Session>
        requires { IsSome self.session }
        ensures { Some result.value ≡ self.session }
    {
        let SessionPlace { at } = self;
        unsafe { Box::from_raw(alloc, at as *mut Session) }
    }
}

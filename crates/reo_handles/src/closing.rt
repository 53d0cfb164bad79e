//! Closing what is open.
ghost use Rattle.std.specs.Prelude.{◌≡◌, None};

use crate::handle::{Handle, taken};
use std::alloc::Global;

/// Closes what is open in a handle, if anything is. All of its memory is given back.
pub fn close(alloc: Global, handle: &mut Handle)
    ensures { handle.new.place.session ≡ None }
{
    let _closed = taken(alloc, handle);
}

//! The names whose fetch failed.
ghost use Rattle.std.specs.Prelude.{◌≡◌};
ghost use Rattle.reo_io.specs.Notes.{Notes};

use crate::FetchFault;
use reo_values::{Bytes, List};
use std::alloc::Global;

/// Notes that the fetch of a name failed, or answers that memory ran out.
pub(crate) fn note(alloc: Global, failed: &mut List<Bytes>, name: &[u8]) -> FetchFault
    ensures { Notes failed.old failed.new name.now result }
{
    let Ok(name) = Bytes::from_slice(alloc, name) else {
        return FetchFault::NoMemory;
    };
    match failed.push(name) {
        Ok(()) => FetchFault::Failed,
        Err(_) => FetchFault::NoMemory,
    }
}

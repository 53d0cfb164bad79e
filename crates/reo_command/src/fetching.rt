//! Fetching files.
ghost use Rattle.std.specs.Prelude.{[], ◌∷◌, ◌≤◌, IfOk, length};
ghost use Rattle.reo_command.specs.Fetched.{AreFetched, answer_of, IsFetchStop, AreShort};
ghost use Rattle.reo_command.specs.Roles.{most_bytes};
ghost use Rattle.reo_command.specs.States.{files_change};

use crate::role::Role;
use crate::stop::Stop;
use reo_io::{FetchFault, Files};
use reo_values::Bytes;
use std::alloc::Global;

/// The bytes of a file, or why it is none that is read.
pub(crate) fn fetch<F: Files>(
    alloc: Global,
    role: Role,
    name: &[u8],
    files: &mut F,
) -> Result<Bytes, Stop>
    ensures fetched { AreFetched (role ∷ []) (name.now ∷ []) (answer_of result ∷ [])
        (files_change F.told F.failed F.given F.long F.fetches files.old files.new) }
    ensures stop { IsFetchStop role result }
    ensures short { AreShort (answer_of result ∷ []) }
    ensures size { IfOk result (λ bytes. length bytes ≤ most_bytes role) }
{
    let mut room = Bytes::new(alloc);
    match files.fetch(alloc, name, role.most_bytes(), &mut room) {
        Ok(()) => Ok(room),
        Err(FetchFault::Failed) => Err(Stop::Missed(role)),
        Err(FetchFault::TooLong) => Err(Stop::TooLong(role)),
        Err(FetchFault::NoMemory) => Err(Stop::NoMemory),
    }
}

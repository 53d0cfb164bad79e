//! Files in memory, looked up by name.
ghost use Rattle.std.specs.Prelude.{◌≡◌, ◌<◌, ◌+◌, ◌^◌, [], length, take, None, Some, IsErrOf, MatchOption};
ghost use Rattle.reo_io.specs.Fetches.{first_of, Gives, Holds};

use crate::{FetchFault, Named};
use reo_values::Bytes;

/// The bytes of the first file of a name.
pub(crate) fn find_file<'a>(files: &'a [Named], name: &[u8]) -> Option<&'a Bytes>
    ensures { MatchOption result (first_of files.now name.now ≡ None)
        (λ bytes. first_of files.now name.now ≡ Some bytes.now) }
{
    for file in files {
        if file.name.as_slice() == name {
            return Some(&file.bytes);
        }
    }
    None
}

/// Puts these bytes into the empty room, or the first of them, one more than the limit.
pub(crate) fn give(bytes: &[u8], limit: usize, room: &mut Bytes) -> Result<(), FetchFault>
    requires empty { room.old ≡ [] }
    requires small { limit < 2 ^ 32 }
    ensures size { Holds limit room.new result }
    ensures gives { Gives (Some bytes.now) limit room.new result }
    ensures failed { IsErrOf result FetchFault.Failed → ⊥ }
{
    if bytes.len() <= limit {
        return match room.append(bytes) {
            Ok(()) => Ok(()),
            Err(_) => Err(FetchFault::NoMemory),
        };
    }
    match room.append(&bytes[..limit + 1]) {
        Ok(()) => Err(FetchFault::TooLong),
        Err(_) => Err(FetchFault::NoMemory),
    }
}

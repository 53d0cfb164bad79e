//! Reading a file to its end or to a limit.
ghost use Rattle.std.specs.Prelude.{◌≡◌, ◌≤◌, ◌<◌, ◌+◌, ◌^◌, [], length, take, IfSome, IsErrOf, OnOk, Some};
ghost use Rattle.reo_io.specs.Fetches.{Gives, Holds};

use crate::FetchFault;
use reo_values::Bytes;
use std::io::Read;

/// Reads to the end, or until one byte more than the limit has come.
fn read_front<F: Read>(file: &mut F, limit: usize, room: &mut Bytes) -> Result<(), FetchFault>
    requires empty { room.old ≡ [] }
    requires small { limit < 2 ^ 32 }
    ensures size { length room.new ≤ limit + 1 }
    ensures bytes { OnOk result
        (IfSome (F.remaining file.old) (λ bytes. room.new ≡ take (limit + 1) bytes)) }
    ensures short { IsErrOf result FetchFault.TooLong → ⊥ }
{
    let mut buffer = [0u8; 4096];
    while room.len() <= limit {
        let wanted = (limit + 1 - room.len()).min(4096);
        match file.read(&mut buffer[..wanted]) {
            Ok(0) => return Ok(()),
            Ok(count) => {
                if room.append(&buffer[..count]).is_err() {
                    return Err(FetchFault::NoMemory);
                }
            }
            Err(_) => return Err(FetchFault::Failed),
        }
    }
    Ok(())
}

/// Reads a file into the empty room, at most `limit` bytes. `TooLong` leaves its first `limit + 1`
/// bytes there, and another fault none.
pub(crate) fn read_file<F: Read>(
    file: &mut F,
    limit: usize,
    room: &mut Bytes,
) -> Result<(), FetchFault>
    requires empty { room.old ≡ [] }
    requires small { limit < 2 ^ 32 }
    ensures size { Holds limit room.new result }
    // where the reader says what it has left
    ensures bytes { IfSome (F.remaining file.old)
        (λ bytes. Gives (Some bytes) limit room.new result) }
{
    match read_front(file, limit, room) {
        Ok(()) if room.len() <= limit => Ok(()),
        Ok(()) => Err(FetchFault::TooLong),
        Err(fault) => {
            room.clear();
            Err(fault)
        }
    }
}

//! Files by their names.
ghost use Rattle.std.specs.Prelude.{◌≡◌, ◌<◌, ◌^◌, List, ℕ, Option, []};

use reo_values::Bytes;
use std::alloc::Global;

/// Why a fetch gave no whole file.
#[derive(Clone, Copy, Debug, PartialEq, Eq)]
pub enum FetchFault {
    /// The file cannot be had. Its name was noted.
    Failed,
    /// The file is longer than the limit.
    TooLong,
    /// Out of memory.
    NoMemory,
}

/// A file in memory.
#[derive(Drop)]
pub struct Named {
    pub name: Bytes,
    pub bytes: Bytes,
}

/// Gives files by their names.
pub trait Files {
    ghost use Rattle.reo_io.specs.Fetches.{Folder, Fetches, Holds, failed_after, fetches_after, long_after};
    ghost use Rattle.reo_io.specs.Given.{given_after};

    /// The files, where they are told.
    ghost told: { Self → Option Folder };

    /// The names whose fetch answered `Failed`, in that order.
    ghost failed: { Self → List (List ℕ) };

    /// The names and bytes of the files whose fetch answered `Ok`, in that order.
    ghost given: { Self → List (List ℕ × List ℕ) };

    /// The names whose fetch answered `TooLong`, in that order.
    ghost long: { Self → List (List ℕ) };

    /// How many fetches there were, modulo 2^64.
    ghost fetches: { Self → ℕ };

    /// Puts the bytes of a file, at most `limit`, into the empty `room`. `Failed` notes the name.
    /// `TooLong` leaves the first `limit + 1` bytes in `room`. After `Failed` and `NoMemory` it is
    /// empty.
    fn fetch(
        &mut self,
        alloc: Global,
        name: &[u8],
        limit: usize,
        room: &mut Bytes,
    ) -> Result<(), FetchFault>
        requires empty { room.old ≡ [] }
        requires small { limit < 2 ^ 32 }
        ensures size { Holds limit room.new result }
        ensures bytes { Fetches (told self.old) name.now limit room.new result }
        ensures cause { failed self.new ≡ failed_after (failed self.old) name.now result }
        ensures long { long self.new ≡ long_after (long self.old) name.now result }
        ensures given { given self.new ≡ given_after (given self.old) name.now room.new result }
        ensures counted { fetches self.new ≡ fetches_after 1 (fetches self.old) }
        ensures told_same { told self.new ≡ told self.old };
}

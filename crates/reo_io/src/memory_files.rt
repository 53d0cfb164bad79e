//! Files in memory, of which chosen fetches fail.
ghost use Rattle.std.specs.Prelude.{◌≡◌, ◌<◌, ◌+◌, ◌^◌, ◌⊎◌, [], ◌∷◌, ◌++◌, length, IfOk, IsErrOf, IsOk, List, ℕ, None, Some};

use crate::failed_names::note;
use crate::failing_calls::FailingCalls;
use crate::lookup::{find_file, give};
use crate::{FetchFault, Files, GivenFiles, GivenNames, Named};
use reo_values::{Bytes, List, NoMemory};
use std::alloc::Global;

/// Files in memory. A name that is not listed stands for no file.
#[derive(Drop)]
pub struct MemoryFiles {
    files: List<Named>,
    calls: FailingCalls,
    failed: List<Bytes>,
    fetches: u64,
    given: GivenFiles,
    long: GivenNames,
}

impl MemoryFiles {
    ghost use Rattle.reo_io.specs.Memory.{files_calls, files_failed, files_given_so, files_long, files_told};
    ghost use Rattle.reo_io.specs.FailingCalls.{first_calls};

    /// These files; of two with one name the first counts. The fetches that `failing` numbers,
    /// from 1, fail.
    pub fn new(alloc: Global, files: List<Named>, failing: List<u64>) -> Result<Self, NoMemory>
        ensures made { IsOk result }
        ensures told { IfOk result
            (λ made. files_told made ≡ record { files = files; others = None }) }
        ensures failed { IfOk result (λ made. files_failed made ≡ []) }
        ensures given { IfOk result (λ made. files_given_so made ≡ []) }
        ensures long { IfOk result (λ made. files_long made ≡ []) }
        ensures calls { IfOk result (λ made. files_calls made ≡ first_calls failing) }
    {
        Ok(MemoryFiles {
            files,
            calls: FailingCalls::new(failing),
            failed: List::new(alloc),
            fetches: 0,
            given: GivenFiles::new(),
            long: GivenNames::new(),
        })
    }
}

impl Files for MemoryFiles {
    ghost use Rattle.reo_io.specs.FailingCalls.{FailsNext, after_call};
    ghost use Rattle.reo_io.specs.Fetches.{Fetches, Holds, failed_after, fetches_after, file_of, long_after};
    ghost use Rattle.reo_io.specs.Given.{given_after};
    ghost use Rattle.reo_io.specs.Memory.{files_calls, files_failed, files_fetches, files_given_so, files_long, files_told};
    ghost use Rattle.std.specs.Prelude.{Some};

    ghost told = { λ files. Some (files_told files) };

    ghost failed = { files_failed };

    ghost given = { files_given_so };

    ghost long = { files_long };

    ghost fetches = { files_fetches };

    fn fetch(
        &mut self,
        alloc: Global,
        name: &[u8],
        limit: usize,
        room: &mut Bytes,
    ) -> Result<(), FetchFault>
        requires empty { room.old ≡ [] }
        requires small { limit < 2 ^ 32 }
        ensures size { Holds limit room.new result }
        ensures bytes { Fetches (Some (files_told self.old)) name.now limit room.new result }
        ensures cause { files_failed self.new ≡ failed_after
            (files_failed self.old) name.now result }
        ensures long { files_long self.new ≡ long_after (files_long self.old) name.now result }
        ensures given { files_given_so self.new ≡ given_after
            (files_given_so self.old) name.now room.new result }
        ensures counted { files_fetches self.new ≡ fetches_after 1 (files_fetches self.old) }
        ensures told_same { Some (files_told self.new) ≡ Some (files_told self.old) }
        ensures calls { files_calls self.new ≡ after_call (files_calls self.old) }
        ensures failed { IsErrOf result FetchFault.Failed → FailsNext (files_calls self.old)
            ⊎ (file_of (files_told self.old) name.now ≡ None) }
        ensures fails { FailsNext (files_calls self.old) → IsErrOf result FetchFault.Failed
            ⊎ IsErrOf result FetchFault.NoMemory }
    {
        self.fetches = self.fetches.wrapping_add(1);
        if self.calls.next_fails() {
            return Err(note(alloc, &mut self.failed, name));
        }
        match find_file(self.files.as_slice(), name) {
            Some(bytes) => {
                let given = give(bytes.as_slice(), limit, room);
                match given {
                    Ok(()) => self.given = self.given.then(name, room.as_slice()),
                    Err(FetchFault::TooLong) => self.long = self.long.then(name),
                    Err(_) => {}
                }
                given
            }
            None => Err(note(alloc, &mut self.failed, name)),
        }
    }
}

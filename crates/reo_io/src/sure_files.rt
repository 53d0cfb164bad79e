//! Files in memory that never fail.
ghost use Rattle.std.specs.Prelude.{◌≡◌, ◌<◌, ◌+◌, ◌^◌, [], IfOk, IsErrOf, IsOk, Some};

use crate::lookup::{find_file, give};
use crate::{FetchFault, Files, GivenFiles, GivenNames, Named};
use reo_values::{Bytes, List, NoMemory};
use std::alloc::Global;

/// Files in memory. A name that is not listed stands for an empty file.
#[derive(Drop)]
pub struct SureFiles {
    files: List<Named>,
    fetches: u64,
    given: GivenFiles,
    long: GivenNames,
}

impl SureFiles {
    ghost use Rattle.reo_io.specs.Sure.{sure_files, sure_files_given, sure_files_long};

    /// These files; of two with one name the first counts.
    pub fn new(_alloc: Global, files: List<Named>) -> Result<Self, NoMemory>
        ensures made { IsOk result }
        ensures told { IfOk result
            (λ made. sure_files made ≡ record { files = files; others = Some [] }) }
        ensures given { IfOk result (λ made. sure_files_given made ≡ []) }
        ensures long { IfOk result (λ made. sure_files_long made ≡ []) }
    {
        Ok(SureFiles {
            files,
            fetches: 0,
            given: GivenFiles::new(),
            long: GivenNames::new(),
        })
    }
}

impl Files for SureFiles {
    ghost use Rattle.reo_io.specs.Fetches.{Fetches, Holds, failed_after, fetches_after, long_after};
    ghost use Rattle.reo_io.specs.Given.{given_after};
    ghost use Rattle.reo_io.specs.Sure.{sure_fetches, sure_files, sure_files_given, sure_files_long};
    ghost use Rattle.std.specs.Prelude.{[], Some};

    ghost told = { λ files. Some (sure_files files) };

    ghost failed = { λ _. [] };

    ghost given = { sure_files_given };

    ghost long = { sure_files_long };

    ghost fetches = { sure_fetches };

    fn fetch(
        &mut self,
        _alloc: Global,
        name: &[u8],
        limit: usize,
        room: &mut Bytes,
    ) -> Result<(), FetchFault>
        requires empty { room.old ≡ [] }
        requires small { limit < 2 ^ 32 }
        ensures size { Holds limit room.new result }
        ensures bytes { Fetches (Some (sure_files self.old)) name.now limit room.new result }
        ensures cause { [] ≡ failed_after [] name.now result }
        ensures long { sure_files_long self.new ≡ long_after
            (sure_files_long self.old) name.now result }
        ensures given { sure_files_given self.new ≡ given_after
            (sure_files_given self.old) name.now room.new result }
        ensures counted { sure_fetches self.new ≡ fetches_after 1 (sure_fetches self.old) }
        ensures told_same { Some (sure_files self.new) ≡ Some (sure_files self.old) }
        ensures sure { IsErrOf result FetchFault.Failed → ⊥ }
    {
        self.fetches = self.fetches.wrapping_add(1);
        if let Some(bytes) = find_file(self.files.as_slice(), name) {
            match give(bytes.as_slice(), limit, room) {
                Ok(()) => {}
                Err(FetchFault::TooLong) => {
                    self.long = self.long.then(name);
                    return Err(FetchFault::TooLong);
                }
                Err(fault) => return Err(fault),
            }
        }
        self.given = self.given.then(name, room.as_slice());
        Ok(())
    }
}

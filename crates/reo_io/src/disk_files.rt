//! The files of the system.
ghost use Rattle.std.specs.Prelude.{◌≡◌, ◌<◌, ◌^◌, []};

use crate::failed_names::note;
use crate::opening::Openings;
use crate::reading::read_file;
use crate::{FetchFault, Files, GivenFiles, GivenNames};
use reo_values::{Bytes, List};
use std::alloc::Global;
use std::{io, rt};

/// The files of the system, whose content is not told before it is fetched. A name that is no text,
/// a file that does not exist and one that cannot be opened or read answer `Failed`.
#[derive(Drop)]
pub struct DiskFiles<'a, R: rt::Files> {
    system: &'a R,
    failed: List<Bytes>,
    fetches: u64,
    given: GivenFiles,
    long: GivenNames,
    opened: Openings<R::File>,
}

impl<'a, R: rt::Files> DiskFiles<'a, R> {
    ghost use Rattle.reo_io.specs.Real.{disk_failed, disk_fetches, disk_given, disk_long, disk_opened};

    /// The files of this system, of which none was fetched yet.
    pub fn new(alloc: Global, system: &'a R) -> Self
        ensures failed { disk_failed result ≡ [] }
        ensures given { disk_given result ≡ [] }
        ensures long { disk_long result ≡ [] }
        ensures fetches { disk_fetches result ≡ 0 }
        ensures opened { disk_opened result ≡ [] }
    {
        DiskFiles {
            system,
            failed: List::new(alloc),
            fetches: 0,
            given: GivenFiles::new(),
            long: GivenNames::new(),
            opened: Openings::new(),
        }
    }
}

impl<R: rt::Files> Files for DiskFiles<'_, R> {
    ghost use Rattle.reo_io.specs.Fetches.{Fetches, Holds, failed_after, fetches_after, long_after};
    ghost use Rattle.reo_io.specs.Given.{given_after};
    ghost use Rattle.reo_io.specs.Real.{Opens, WasRead, disk_file, disk_failed, disk_fetches, disk_given, disk_long, disk_opened, disk_told};

    ghost told = { disk_told };

    ghost failed = { disk_failed };

    ghost given = { disk_given };

    ghost long = { disk_long };

    ghost fetches = { disk_fetches };

    fn fetch(
        &mut self,
        alloc: Global,
        name: &[u8],
        limit: usize,
        room: &mut Bytes,
    ) -> Result<(), FetchFault>
        requires empty { room.old ≡ [] }
        requires small { limit < 2 ^ 32 }
        ensures size { Holds limit room.new result }
        ensures bytes { Fetches (disk_told self.old) name.now limit room.new result }
        ensures cause { disk_failed self.new ≡ failed_after (disk_failed self.old) name.now result }
        ensures long { disk_long self.new ≡ long_after (disk_long self.old) name.now result }
        ensures given { disk_given self.new ≡ given_after
            (disk_given self.old) name.now room.new result }
        ensures counted { disk_fetches self.new ≡ fetches_after 1 (disk_fetches self.old) }
        ensures told_same { disk_told self.new ≡ disk_told self.old }
        ensures opened { Opens (disk_opened self.old) (disk_opened self.new) name.now }
        ensures read { let file = disk_file self.new in
            WasRead R.File.remaining name.now file limit room.new result }
    {
        self.fetches = self.fetches.wrapping_add(1);
        let Ok(path) = str::from_utf8(name) else {
            return Err(note(alloc, &mut self.failed, name));
        };
        let mut file = match self.opened.open(self.system, path) {
            Ok(file) => file,
            Err(fault) if fault.kind() == io::ErrorKind::OutOfMemory => {
                return Err(FetchFault::NoMemory);
            }
            Err(_) => return Err(note(alloc, &mut self.failed, name)),
        };
        match read_file(&mut file, limit, room) {
            Ok(()) => {
                self.given = self.given.then(name, room.as_slice());
                Ok(())
            }
            Err(FetchFault::Failed) => Err(note(alloc, &mut self.failed, name)),
            Err(FetchFault::TooLong) => {
                self.long = self.long.then(name);
                Err(FetchFault::TooLong)
            }
            Err(FetchFault::NoMemory) => Err(FetchFault::NoMemory),
        }
    }
}

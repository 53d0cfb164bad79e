//! Opening paths, and what the system answered.
ghost use Rattle.std.specs.Prelude.{◌≡◌, [], ◌∷◌, ◌++◌};

use crate::GivenNames;
use std::fs::File;
use std::snapshot::Snapshot;
use std::{io, rt};

/// The paths that were opened, and what the system answered to the last of them. Only proofs look
/// at it.
#[derive(Drop)]
pub struct Openings<F> {
    paths: GivenNames,
    last: Option<Snapshot<io::Result<F>>>,
}

impl<F> Openings<F> {
    ghost use Rattle.reo_io.specs.Openings.{file_had, last_file, paths_opened};

    /// No path yet.
    pub(crate) fn new() -> Self
        ensures { paths_opened result ≡ [] }
    {
        Openings {
            paths: GivenNames::new(),
            last: None,
        }
    }

    /// Opens the file at this path, and notes the path and the answer. What is opened is what the
    /// system has there: no clause says so, and nothing else opens a path.
    pub(crate) fn open<R: rt::Files<File = F>>(&mut self, system: &R, path: &str) -> io::Result<F>
        ensures path { paths_opened self.new ≡ paths_opened self.old ++ path.now ∷ [] }
        ensures file { last_file self.new ≡ file_had result }
    {
        let answer = File::open(system, path);
        self.paths = self.paths.then(path.as_bytes());
        self.last = Some(Snapshot::of(&answer));
        answer
    }
}

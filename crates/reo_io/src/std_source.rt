//! The source over any reader of std.
ghost use Rattle.std.specs.Prelude.{◌≡◌, ◌<◌, ◌≤◌, [], length, IfOk, None};
ghost use Rattle.std.specs.Io.KnownBytes.{ReadConsumes};
ghost use Rattle.reo_io.specs.Causes.{HasCause, faults_after};
ghost use Rattle.reo_io.specs.Sources.{Takes};

use crate::{GivenBytes, Source, SourceFault};
use std::io::Read;

/// The source over a reader, which tells no bytes before it gives them.
#[derive(Drop)]
pub struct StdSource<R> {
    reader: R,
    faults: u64,
    given: GivenBytes,
}

impl<R: Read> StdSource<R> {
    ghost use Rattle.reo_io.specs.Real.{reader_ends, reader_faults, reader_given, reader_of};

    /// The source over this reader, which has not failed yet.
    pub fn new(reader: R) -> Self
        ensures reader { reader_of result ≡ reader }
        ensures given { reader_given result ≡ [] }
        ensures ends { reader_ends result ≡ 0 }
        ensures faults { reader_faults result ≡ 0 }
    {
        StdSource {
            reader,
            faults: 0,
            given: GivenBytes::new(),
        }
    }
}

impl<R: Read> Source for StdSource<R> {
    ghost use Rattle.reo_io.specs.Given.{ends_after, taken_after};
    ghost use Rattle.reo_io.specs.Real.{reader_ends, reader_faults, reader_given, reader_of};

    ghost told = { λ _. None };

    ghost given = { reader_given };

    ghost ends = { reader_ends };

    ghost faults = { reader_faults };

    fn take(&mut self, room: &mut [u8]) -> Result<usize, SourceFault>
        requires { 0 < length room.old }
        ensures bound { IfOk result (λ count. count ≤ length room.new) }
        ensures bytes { Takes None None room.new result }
        ensures given { reader_given self.new ≡ taken_after
            (reader_given self.old) room.new result }
        ensures ended { reader_ends self.new ≡ ends_after
            (reader_ends self.old) room.new result }
        ensures cause { HasCause (reader_faults self.old) (reader_faults self.new) result }
        ensures faults { reader_faults self.new ≡ faults_after (reader_faults self.old) result }
        // the call is one read of the reader, where it says what its reads give
        ensures read { ReadConsumes (R.remaining (reader_of self.old))
            (R.remaining (reader_of self.new)) result room.new }
    {
        match self.reader.read(room) {
            Ok(count) => {
                self.given = self.given.then(&room[..count]);
                Ok(count)
            }
            Err(_) => {
                self.faults = self.faults.saturating_add(1);
                Err(SourceFault::Failed)
            }
        }
    }
}

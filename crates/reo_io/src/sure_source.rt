//! A source in memory that never fails.
ghost use Rattle.std.specs.Prelude.{◌≡◌, ◌<◌, ◌≤◌, [], length, min, IfOk, IsOk, Some, Ok};
ghost use Rattle.reo_io.specs.Causes.{HasCause};
ghost use Rattle.reo_io.specs.Sources.{Takes};

use crate::remaining::Remaining;
use crate::{GivenBytes, Source, SourceFault};
use reo_values::{Bytes, NoMemory};
use std::alloc::Global;

/// A source in memory that never fails.
#[derive(Drop)]
pub struct SureSource {
    bytes: Remaining,
    given: GivenBytes,
}

impl SureSource {
    ghost use Rattle.reo_io.specs.Sure.{sure_ends, sure_given, sure_left};

    /// A source of these bytes.
    pub fn new(_alloc: Global, bytes: Bytes) -> Result<Self, NoMemory>
        ensures made { IsOk result }
        ensures given { IfOk result (λ source. sure_given source ≡ []) }
        ensures ends { IfOk result (λ source. sure_ends source ≡ 0) }
        ensures left { IfOk result (λ source. sure_left source ≡ bytes) }
    {
        Ok(SureSource {
            bytes: Remaining::new(bytes),
            given: GivenBytes::new(),
        })
    }

    /// The bytes left.
    pub fn left(&self) -> &[u8]
        ensures { result.now ≡ sure_left self.now }
    {
        self.bytes.left()
    }
}

impl Source for SureSource {
    ghost use Rattle.reo_io.specs.Given.{ends_after, taken_after};
    ghost use Rattle.reo_io.specs.Sure.{sure_ends, sure_given, sure_left};

    ghost told = { λ source. Some (sure_left source) };

    ghost given = { sure_given };

    ghost ends = { sure_ends };

    ghost faults = { λ _. 0 };

    fn take(&mut self, room: &mut [u8]) -> Result<usize, SourceFault>
        requires { 0 < length room.old }
        ensures bound { IfOk result (λ count. count ≤ length room.new) }
        ensures bytes { Takes (Some (sure_left self.old))
            (Some (sure_left self.new)) room.new result }
        ensures given { sure_given self.new ≡ taken_after
            (sure_given self.old) room.new result }
        ensures ended { sure_ends self.new ≡ ends_after
            (sure_ends self.old) room.new result }
        ensures cause { HasCause 0 0 result }
        ensures count { result ≡ Ok (min (length (sure_left self.old)) (length room.old)) }
    {
        let count = self.bytes.move_to(room, usize::MAX);
        self.given = self.given.then(&room[..count]);
        Ok(count)
    }
}

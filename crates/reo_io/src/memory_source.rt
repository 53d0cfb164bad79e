//! A source in memory, of which chosen calls fail.
ghost use Rattle.std.specs.Prelude.{◌≡◌, ◌<◌, ◌≤◌, ◌↔◌, [], length, min, IfOk, IsErr, IsOk, Some};
ghost use Rattle.reo_io.specs.Causes.{HasCause, faults_after};
ghost use Rattle.reo_io.specs.Sources.{Takes};

use crate::failing_calls::FailingCalls;
use crate::remaining::Remaining;
use crate::{GivenBytes, Source, SourceFault};
use reo_values::{Bytes, List, NoMemory};
use std::alloc::Global;

/// A source in memory.
#[derive(Drop)]
pub struct MemorySource {
    bytes: Remaining,
    piece: usize,
    calls: FailingCalls,
    faults: u64,
    given: GivenBytes,
    ghost some_bytes: { 1 ≤ piece },
}

impl MemorySource {
    ghost use Rattle.reo_io.specs.FailingCalls.{first_calls};
    ghost use Rattle.reo_io.specs.Memory.{source_calls, source_ends, source_faults, source_given, source_left, source_piece};

    /// A source of these bytes, of which one call gives at most `piece`. The calls that `failing`
    /// numbers, from 1, fail.
    pub fn new(
        _alloc: Global,
        bytes: Bytes,
        piece: usize,
        failing: List<u64>,
    ) -> Result<Self, NoMemory>
        requires { 1 ≤ piece }
        ensures made { IsOk result }
        ensures left { IfOk result (λ source. source_left source ≡ bytes) }
        ensures piece { IfOk result (λ source. source_piece source ≡ piece) }
        ensures calls { IfOk result (λ source. source_calls source ≡ first_calls failing) }
        ensures given { IfOk result (λ source. source_given source ≡ []) }
        ensures ends { IfOk result (λ source. source_ends source ≡ 0) }
        ensures faults { IfOk result (λ source. source_faults source ≡ 0) }
    {
        Ok(MemorySource {
            bytes: Remaining::new(bytes),
            piece,
            calls: FailingCalls::new(failing),
            faults: 0,
            given: GivenBytes::new(),
        })
    }

    /// The bytes left.
    pub fn left(&self) -> &[u8]
        ensures { result.now ≡ source_left self.now }
    {
        self.bytes.left()
    }
}

impl Source for MemorySource {
    ghost use Rattle.reo_io.specs.FailingCalls.{FailsNext, after_call};
    ghost use Rattle.reo_io.specs.Given.{ends_after, taken_after};
    ghost use Rattle.reo_io.specs.Memory.{source_calls, source_ends, source_faults, source_given, source_left, source_piece};

    ghost told = { λ source. Some (source_left source) };

    ghost given = { source_given };

    ghost ends = { source_ends };

    ghost faults = { source_faults };

    fn take(&mut self, room: &mut [u8]) -> Result<usize, SourceFault>
        requires { 0 < length room.old }
        ensures bound { IfOk result (λ count. count ≤ length room.new) }
        ensures bytes { Takes (Some (source_left self.old))
            (Some (source_left self.new)) room.new result }
        ensures given { source_given self.new ≡ taken_after
            (source_given self.old) room.new result }
        ensures ended { source_ends self.new ≡ ends_after
            (source_ends self.old) room.new result }
        ensures cause { HasCause (source_faults self.old) (source_faults self.new) result }
        ensures count { IfOk result
            (λ count. count ≡ min (length (source_left self.old))
            (min (length room.old) (source_piece self.old))) }
        ensures failed { IsErr result ↔ FailsNext (source_calls self.old) }
        ensures faults { source_faults self.new ≡ faults_after (source_faults self.old) result }
        ensures calls { source_calls self.new ≡ after_call (source_calls self.old) }
        ensures piece { source_piece self.new ≡ source_piece self.old }
    {
        if self.calls.next_fails() {
            self.faults = self.faults.saturating_add(1);
            return Err(SourceFault::Failed);
        }
        let count = self.bytes.move_to(room, self.piece);
        self.given = self.given.then(&room[..count]);
        Ok(count)
    }
}

//! A sink in memory, of which chosen calls fail.
ghost use Rattle.std.specs.Prelude.{◌≡◌, ◌+◌, ◌<◌, ◌≤◌, ◌↔◌, ◌⊎◌, [], ◌∷◌, ◌++◌, length, min, take, IfOk, IsErr, Some};
ghost use Rattle.reo_io.specs.Causes.{HasCause, faults_after};
ghost use Rattle.reo_io.specs.Sinks.{Puts};

use crate::failing_calls::FailingCalls;
use crate::kept::keep;
use crate::{Sink, SinkFault};
use reo_values::{Filling, List, NoMemory};
use std::alloc::Global;

/// A sink in memory.
#[derive(Drop)]
pub struct MemorySink {
    kept: Filling<u8>,
    piece: usize,
    calls: FailingCalls,
    faults: u64,
    ghost some_bytes: { 1 ≤ piece },
}

impl MemorySink {
    ghost use Rattle.reo_io.specs.FailingCalls.{first_calls};
    ghost use Rattle.reo_io.specs.Memory.{sink_bytes, sink_calls, sink_faults, sink_piece, sink_room};

    /// An empty sink with room for so many bytes, of which one call takes at most `piece`. The
    /// calls that `failing` numbers, from 1, fail, and so does a call without room left.
    pub fn new(
        alloc: Global,
        room: usize,
        piece: usize,
        failing: List<u64>,
    ) -> Result<Self, NoMemory>
        requires { 1 ≤ piece }
        ensures empty { IfOk result (λ sink. sink_bytes sink ≡ []) }
        ensures room { IfOk result (λ sink. sink_room sink ≡ room) }
        ensures piece { IfOk result (λ sink. sink_piece sink ≡ piece) }
        ensures calls { IfOk result (λ sink. sink_calls sink ≡ first_calls failing) }
        ensures faults { IfOk result (λ sink. sink_faults sink ≡ 0) }
    {
        Ok(MemorySink {
            kept: Filling::with_room(alloc, room)?,
            piece,
            calls: FailingCalls::new(failing),
            faults: 0,
        })
    }

    /// The bytes kept.
    pub fn bytes(&self) -> &[u8]
        ensures { result.now ≡ sink_bytes self.now }
    {
        self.kept.as_slice()
    }
}

impl Sink for MemorySink {
    ghost use Rattle.reo_io.specs.FailingCalls.{FailsNext, after_call};
    ghost use Rattle.reo_io.specs.Memory.{sink_bytes, sink_calls, sink_faults, sink_piece, sink_room};

    ghost told = { λ sink. Some (sink_bytes sink) };

    ghost faults = { sink_faults };

    fn put(&mut self, piece: &[u8]) -> Result<usize, SinkFault>
        requires { 0 < length piece.now }
        ensures bytes { Puts (Some (sink_bytes self.old))
            (Some (sink_bytes self.new)) piece.now result }
        ensures cause { HasCause (sink_faults self.old) (sink_faults self.new) result }
        ensures count { IfOk result
            (λ count. count ≡ min (length piece.now)
            (min (sink_piece self.old) (sink_room self.old))) }
        ensures failed { IsErr result
            ↔ (FailsNext (sink_calls self.old) ⊎ (sink_room self.old ≡ 0)) }
        ensures faults { sink_faults self.new ≡ faults_after (sink_faults self.old) result }
        ensures calls { sink_calls self.new ≡ after_call (sink_calls self.old) }
        ensures piece { sink_piece self.new ≡ sink_piece self.old }
        ensures room { length (sink_bytes self.new) + sink_room self.new
            ≡ length (sink_bytes self.old) + sink_room self.old }
    {
        let fails = self.calls.next_fails();
        let room = self.kept.room();
        if fails || room == 0 {
            self.faults = self.faults.saturating_add(1);
            return Err(SinkFault::Failed);
        }
        let count = piece.len().min(self.piece).min(room);
        keep(&mut self.kept, &piece[..count]);
        Ok(count)
    }
}

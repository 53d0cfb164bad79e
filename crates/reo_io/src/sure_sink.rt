//! A sink in memory that never fails.
ghost use Rattle.std.specs.Prelude.{◌≡◌, ◌-◌, ◌<◌, ◌≤◌, ◌↔◌, [], ◌++◌, length, take, IfOk, IfSome, IsSome, Some, Ok};
ghost use Rattle.reo_io.specs.Causes.{HasCause};
ghost use Rattle.reo_io.specs.Sinks.{Puts};

use crate::kept::keep;
use crate::{Sink, SinkFault};
use reo_values::{Filling, NoMemory};
use std::alloc::Global;

/// It takes every byte and keeps those for which there is room. It tells its bytes until one found
/// no room.
#[derive(Drop)]
pub struct SureSink {
    kept: Filling<u8>,
    whole: bool,
}

impl SureSink {
    ghost use Rattle.reo_io.specs.Sure.{sure_kept, sure_room, sure_told};

    /// An empty sink with room for so many bytes.
    pub fn new(alloc: Global, room: usize) -> Result<Self, NoMemory>
        ensures empty { IfOk result (λ sink. sure_told sink ≡ Some []) }
        ensures room { IfOk result (λ sink. sure_room sink ≡ room) }
    {
        Ok(SureSink {
            kept: Filling::with_room(alloc, room)?,
            whole: true,
        })
    }

    /// The bytes kept.
    pub fn bytes(&self) -> &[u8]
        ensures kept { result.now ≡ sure_kept self.now }
        ensures told { IfSome (sure_told self.now) (λ told. result.now ≡ told) }
    {
        self.kept.as_slice()
    }
}

impl Sink for SureSink {
    ghost use Rattle.reo_io.specs.Sure.{sure_kept, sure_room, sure_told};

    ghost told = { sure_told };

    ghost faults = { λ _. 0 };

    fn put(&mut self, piece: &[u8]) -> Result<usize, SinkFault>
        requires { 0 < length piece.now }
        ensures bytes { Puts (sure_told self.old) (sure_told self.new) piece.now result }
        ensures cause { HasCause 0 0 result }
        ensures count { result ≡ Ok (length piece.now) }
        ensures kept { sure_kept self.new ≡ sure_kept self.old ++ take
            (sure_room self.old) piece.now }
        ensures room { sure_room self.new ≡ sure_room self.old - length piece.now }
        ensures told { IsSome (sure_told self.new)
            ↔ (IsSome (sure_told self.old) × (length piece.now ≤ sure_room self.old)) }
    {
        let count = piece.len().min(self.kept.room());
        keep(&mut self.kept, &piece[..count]);
        if count < piece.len() {
            self.whole = false;
        }
        Ok(piece.len())
    }
}

//! A sink that keeps nothing.
ghost use Rattle.std.specs.Prelude.{◌≡◌, ◌<◌, length, None, Ok};
ghost use Rattle.reo_io.specs.Causes.{HasCause};
ghost use Rattle.reo_io.specs.Sinks.{Puts};

use crate::{Sink, SinkFault};

/// It takes every byte, keeps and tells none, and never fails.
#[derive(Drop)]
pub struct NullSink;

impl NullSink {
    /// The sink. No memory is taken.
    pub fn new() -> Self {
        NullSink
    }
}

impl Sink for NullSink {
    ghost told = { λ _. None };

    ghost faults = { λ _. 0 };

    fn put(&mut self, piece: &[u8]) -> Result<usize, SinkFault>
        requires { 0 < length piece.now }
        ensures bytes { Puts None None piece.now result }
        ensures cause { HasCause 0 0 result }
        ensures count { result ≡ Ok (length piece.now) }
    {
        Ok(piece.len())
    }
}

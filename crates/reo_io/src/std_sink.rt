//! The sink over any writer of std.
ghost use Rattle.std.specs.Prelude.{◌≡◌, ◌<◌, length, [], OnOk, Some};
ghost use Rattle.std.specs.Io.KnownBytes.{Keeps, WriteAppends};
ghost use Rattle.reo_io.specs.Causes.{HasCause, faults_after};
ghost use Rattle.reo_io.specs.Sinks.{Puts};

use crate::{GivenBytes, Holding, Sink, SinkFault};
use std::io::Write;

/// The sink over a writer, which tells the bytes that the writer took.
#[derive(Drop)]
pub struct StdSink<W> {
    writer: W,
    faults: u64,
    took: GivenBytes,
}

impl<W: Write> StdSink<W> {
    ghost use Rattle.reo_io.specs.Real.{writer_faults, writer_of, writer_took};

    /// The sink over this writer, which has not failed yet.
    pub fn new(writer: W) -> Self
        ensures writer { writer_of result ≡ writer }
        ensures took { writer_took result ≡ [] }
        ensures faults { writer_faults result ≡ 0 }
    {
        StdSink {
            writer,
            faults: 0,
            took: GivenBytes::new(),
        }
    }

    /// The writer, with what it holds back.
    pub fn into_writer(self) -> W
        ensures { result ≡ writer_of self }
    {
        self.writer
    }
}

impl<W: Holding> StdSink<W> {
    ghost use Rattle.reo_io.specs.Real.{writer_faults, writer_held, writer_of, writer_took};

    /// Has the writer give on what it holds back. Where it fails, that counts as a fault.
    pub fn flush(&mut self) -> Result<(), SinkFault>
        ensures faults { writer_faults self.new ≡ faults_after (writer_faults self.old) result }
        ensures took { writer_took self.new ≡ writer_took self.old }
        ensures held { OnOk result (writer_held W.held self.new ≡ []) }
        ensures bytes { Keeps (W.contents (writer_of self.old)) (W.contents (writer_of self.new)) }
    {
        match self.writer.give_on() {
            Ok(()) => Ok(()),
            Err(_) => {
                self.faults = self.faults.saturating_add(1);
                Err(SinkFault::Failed)
            }
        }
    }
}

impl<W: Write> Sink for StdSink<W> {
    ghost use Rattle.reo_io.specs.Real.{writer_faults, writer_of, writer_took};

    ghost told = { λ sink. Some (writer_took sink) };

    ghost faults = { writer_faults };

    /// A write that takes no byte counts as a fault.
    fn put(&mut self, piece: &[u8]) -> Result<usize, SinkFault>
        requires { 0 < length piece.now }
        ensures bytes { Puts (Some (writer_took self.old))
            (Some (writer_took self.new)) piece.now result }
        ensures cause { HasCause (writer_faults self.old) (writer_faults self.new) result }
        ensures faults { writer_faults self.new ≡ faults_after (writer_faults self.old) result }
        // the call is one write of the writer, where it says what its writes keep
        ensures written { WriteAppends (W.contents (writer_of self.old))
            (W.contents (writer_of self.new)) result piece.now }
    {
        match self.writer.write(piece) {
            Ok(count) if 0 < count => {
                self.took = self.took.then(&piece[..count]);
                Ok(count)
            }
            _ => {
                self.faults = self.faults.saturating_add(1);
                Err(SinkFault::Failed)
            }
        }
    }
}

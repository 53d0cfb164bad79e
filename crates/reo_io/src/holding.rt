//! Writers that hold back what they took.
ghost use Rattle.std.specs.Prelude.{◌≡◌, List, ℕ, OnOk, []};
ghost use Rattle.std.specs.Io.KnownBytes.{Keeps};

use std::io;
use std::io::{BufWriter, Print, Printer, Write};

/// A writer that says which bytes it holds back.
pub trait Holding: Write {
    /// The bytes that it took and has not given on.
    ghost held: { Self → List ℕ };

    /// Gives on what is held back.
    fn give_on(&mut self) -> io::Result<()>
        ensures held { OnOk result (held self.new ≡ []) }
        ensures bytes { Keeps (Self.contents self.old) (Self.contents self.new) };
}

impl<W: Write + Drop> Holding for BufWriter<W> {
    ghost use Rattle.std.specs.Io.Buffered.{writer_buffer};

    ghost held = { writer_buffer };

    fn give_on(&mut self) -> io::Result<()> {
        self.flush()
    }
}

/// The output of the system holds nothing back that a contract could name.
impl<P: Print> Holding for Printer<'_, P> {
    ghost use Rattle.std.specs.Prelude.{[]};

    ghost held = { λ _. [] };

    fn give_on(&mut self) -> io::Result<()> {
        self.flush()
    }
}

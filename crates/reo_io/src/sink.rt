//! Where bytes go.
ghost use Rattle.std.specs.Prelude.{◌≡◌, ◌<◌, List, ℕ, Option, length, OnOk, OnErr};
ghost use Rattle.reo_io.specs.Causes.{HasCause};
ghost use Rattle.reo_io.specs.Sinks.{Appended, Puts, TookPart};

/// Why a sink took nothing.
#[derive(Clone, Copy, Debug, PartialEq, Eq)]
pub enum SinkFault {
    /// The sink failed, and its count of faults rose.
    Failed,
}

/// Takes bytes, one after another.
pub trait Sink {
    /// The bytes so far, where the sink tells them.
    ghost told: { Self → Option (List ℕ) };

    /// How often the sink has failed. It never falls, and rises only where a call answers `Failed`.
    ghost faults: { Self → ℕ };

    /// Takes bytes from the front of the piece, at least one, and answers how many. After `Failed`
    /// none was taken. No memory is taken.
    fn put(&mut self, piece: &[u8]) -> Result<usize, SinkFault>
        requires { 0 < length piece.now }
        ensures bytes { Puts (told self.old) (told self.new) piece.now result }
        ensures cause { HasCause (faults self.old) (faults self.new) result };
}

/// Puts the whole piece. After `Failed` a front of it, not the whole, was taken. No memory is
/// taken.
pub fn put_all<S: Sink>(piece: &[u8], out: &mut S) -> Result<(), SinkFault>
    ensures ok { OnOk result (Appended (S.told out.old) (S.told out.new) piece.now) }
    ensures err { OnErr result (TookPart (S.told out.old) (S.told out.new) piece.now) }
    ensures cause { HasCause (S.faults out.old) (S.faults out.new) result }
{
    let mut done = 0;
    while done < piece.len() {
        done += out.put(&piece[done..])?;
    }
    Ok(())
}

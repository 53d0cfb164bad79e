//! Where bytes come from.
ghost use Rattle.std.specs.Prelude.{◌≡◌, ◌<◌, ◌≤◌, List, ℕ, Option, length, IfOk};
ghost use Rattle.reo_io.specs.Causes.{HasCause};
ghost use Rattle.reo_io.specs.Sources.{Takes};

/// Why a source gave nothing.
#[derive(Clone, Copy, Debug, PartialEq, Eq)]
pub enum SourceFault {
    /// The source failed, and its count of faults rose.
    Failed,
}

/// Gives bytes, one after another.
pub trait Source {
    ghost use Rattle.reo_io.specs.Given.{ends_after, taken_after};

    /// The bytes left, where the source tells them.
    ghost told: { Self → Option (List ℕ) };

    /// The bytes that it gave, one after another.
    ghost given: { Self → List ℕ };

    /// How often a take has answered that no byte is left.
    ghost ends: { Self → ℕ };

    /// How often the source has failed. It never falls, and rises only where a call answers
    /// `Failed`.
    ghost faults: { Self → ℕ };

    /// Puts the next bytes at the front of the room, and answers how many. No byte is the end.
    /// After `Failed` none was taken. No memory is taken.
    fn take(&mut self, room: &mut [u8]) -> Result<usize, SourceFault>
        requires { 0 < length room.old }
        ensures bound { IfOk result (λ count. count ≤ length room.new) }
        ensures bytes { Takes (told self.old) (told self.new) room.new result }
        ensures given { given self.new ≡ taken_after (given self.old) room.new result }
        ensures ended { ends self.new ≡ ends_after (ends self.old) room.new result }
        ensures cause { HasCause (faults self.old) (faults self.new) result };
}

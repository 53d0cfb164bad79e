//! Bytes kept in room that was taken before.
ghost use Rattle.std.specs.Prelude.{◌≡◌, ◌+◌, ◌≤◌, ◌++◌, length};

use reo_values::Filling;

/// Keeps these bytes at the back. No memory is taken.
pub(crate) fn keep(kept: &mut Filling<u8>, bytes: &[u8])
    requires { length bytes.now ≤ kept.old.room }
    ensures items { kept.new.items ≡ kept.old.items ++ bytes.now }
    ensures room { kept.new.room + length bytes.now ≡ kept.old.room }
{
    for byte in bytes {
        kept.push(*byte);
    }
}

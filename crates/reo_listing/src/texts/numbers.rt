//! Numbers that stand in lines.
ghost use Rattle.std.specs.Prelude.{◌≡◌, ◌++◌, OnOk};
ghost use Rattle.std.specs.Fmt.{decimal};

use reo_values::{Bytes, NoMemory, append_decimal};
use std::alloc::Global;

/// Adds a word with a number. `NoMemory` is out of memory.
pub(crate) fn append_numbered(
    alloc: Global,
    text: &mut Bytes,
    word: &[u8],
    number: u128,
) -> Result<(), NoMemory>
    ensures { OnOk result (text.new ≡ text.old ++ (word.now ++ decimal number)) }
{
    text.append(word)?;
    append_decimal(alloc, text, number)
}

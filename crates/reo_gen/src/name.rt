//! Names with a number.
ghost use Rattle.std.specs.Prelude.{◌≡◌, ◌++◌, OnOk};
ghost use Rattle.reo_gen.specs.Names.{numbered};

use reo_values::{Bytes, NoMemory, append_number};
use std::alloc::Global;

/// Adds a word with a number behind it. `NoMemory`: out of memory.
pub(crate) fn append_numbered(
    alloc: Global,
    text: &mut Bytes,
    word: &[u8],
    number: u32,
) -> Result<(), NoMemory>
    ensures { OnOk result (text.new ≡ text.old ++ numbered word.now number) }
{
    text.append(word)?;
    append_number(alloc, text, i64::from(number))
}

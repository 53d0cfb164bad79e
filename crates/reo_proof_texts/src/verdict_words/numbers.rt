//! Numbers that stand in lines.
ghost use Rattle.std.specs.Prelude.{◌≡◌, ◌++◌, OnOk};
ghost use Rattle.std.specs.Fmt.{decimal};

use reo_values::{Bytes, NoMemory};
use std::alloc::Global;

/// Adds a number in decimal. `NoMemory` is out of memory.
fn append_number(alloc: Global, line: &mut Bytes, number: u64) -> Result<(), NoMemory>
    ensures { OnOk result (line.new ≡ line.old ++ decimal number) }
{
    match number.to_string(alloc) {
        Ok(digits) => line.append(digits.as_bytes()),
        Err(_) => Err(NoMemory),
    }
}

/// Adds a word with a number. `NoMemory` is out of memory.
pub fn append_numbered(
    alloc: Global,
    line: &mut Bytes,
    word: &[u8],
    number: u64,
) -> Result<(), NoMemory>
    ensures { OnOk result (line.new ≡ line.old ++ (word.now ++ decimal number)) }
{
    line.append(word)?;
    append_number(alloc, line, number)
}

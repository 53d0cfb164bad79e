//! Numbers and texts in quotes at the end of other bytes.
ghost use Rattle.std.specs.Prelude.{◌≡◌, ◌++◌, length, take, OnErr, OnOk};
ghost use Rattle.std.specs.List.{flat_map};
ghost use Rattle.std.specs.Fmt.{decimal, signed_decimal};
ghost use Rattle.reo_values.specs.ItemText.{escape, quoted};

use crate::{Bytes, NoMemory, number_text};
use std::alloc::Global;

// What was there before stays in front, also where memory ends in the middle.
fn append_escaped(out: &mut Bytes, bytes: &[u8]) -> Result<(), NoMemory>
    ensures ok { OnOk result (out.new ≡ out.old ++ flat_map escape bytes.now) }
    ensures err { OnErr result (take (length out.old) out.new ≡ out.old) }
{
    for byte in bytes {
        if *byte == b'"' || *byte == b'\\' {
            out.push(b'\\')?;
        }
        out.push(*byte)?;
    }
    Ok(())
}

fn append_with_quotes(out: &mut Bytes, bytes: &[u8]) -> Result<(), NoMemory>
    ensures ok { OnOk result (out.new ≡ out.old ++ quoted bytes.now) }
    ensures err { OnErr result (take (length out.old) out.new ≡ out.old) }
{
    out.push(b'"')?;
    append_escaped(out, bytes)?;
    out.push(b'"')
}

/// Adds bytes in quotes, with `\` before a quote and a `\`. After `NoMemory`, out of memory,
/// nothing has been added.
pub fn append_quoted(out: &mut Bytes, bytes: &[u8]) -> Result<(), NoMemory>
    ensures ok { OnOk result (out.new ≡ out.old ++ quoted bytes.now) }
    ensures err { OnErr result (out.new ≡ out.old) }
{
    let before = out.len();
    let added = append_with_quotes(out, bytes);
    if added.is_err() {
        out.truncate(before);
    }
    added
}

/// Adds a number in decimal, with `-` before a negative one. After `NoMemory`, out of memory,
/// nothing has been added.
pub fn append_number(alloc: Global, out: &mut Bytes, number: i64) -> Result<(), NoMemory>
    ensures ok { OnOk result (out.new ≡ out.old ++ signed_decimal number) }
    ensures err { OnErr result (out.new ≡ out.old) }
{
    let text = number_text(alloc, number)?;
    out.append(text.as_slice())
}

/// Adds a whole number in decimal. After `NoMemory`, out of memory, nothing has been added.
pub fn append_decimal(alloc: Global, out: &mut Bytes, number: u128) -> Result<(), NoMemory>
    ensures ok { OnOk result (out.new ≡ out.old ++ decimal number) }
    ensures err { OnErr result (out.new ≡ out.old) }
{
    match number.to_string(alloc) {
        Ok(digits) => out.append(digits.as_bytes()),
        Err(_) => Err(NoMemory),
    }
}

//! Texts between the quotes of a label.
ghost use Rattle.std.specs.Prelude.{◌≡◌, ◌++◌, OnOk};
ghost use Rattle.std.specs.Fmt.{decimal};
ghost use Rattle.std.specs.List.{flat_map};
ghost use Rattle.reo_drawing.specs.label_texts.Escape.{code_text, escape, label};

use reo_values::{Bytes, NoMemory, append_decimal};
use std::alloc::Global;

/// Adds a byte by its number.
#[tactic(auto, unfolding(crate::specs::label_texts::Escape::code_text))]
fn append_code(alloc: Global, text: &mut Bytes, byte: u8) -> Result<(), NoMemory>
    ensures { OnOk result (text.new ≡ text.old ++ code_text byte) }
{
    text.append(b"&#")?;
    append_decimal(alloc, text, byte as u128)?;
    text.append(b";")
}

/// Adds a byte as it stands in a label.
fn append_escaped(alloc: Global, text: &mut Bytes, byte: u8) -> Result<(), NoMemory>
    ensures { OnOk result (text.new ≡ text.old ++ escape byte) }
{
    if byte == b'"' {
        text.append(b"\\\"")
    } else if byte == b'\\' {
        text.append(b"\\\\")
    } else if byte == b'\n' {
        text.append(b"\\n")
    } else if byte == b'&' || byte < b' ' || b'~' < byte {
        append_code(alloc, text, byte)
    } else {
        text.push(byte)
    }
}

/// Adds bytes as they stand in a label.
fn append_all(alloc: Global, text: &mut Bytes, bytes: &[u8]) -> Result<(), NoMemory>
    ensures { OnOk result (text.new ≡ text.old ++ flat_map escape bytes.now) }
{
    for byte in bytes {
        append_escaped(alloc, text, *byte)?;
    }
    Ok(())
}

/// Adds a label: the bytes as they stand in one, between quotes. `NoMemory` is out of memory.
#[tactic(auto, unfolding(crate::specs::label_texts::Escape::label))]
pub fn append_label(alloc: Global, text: &mut Bytes, bytes: &[u8]) -> Result<(), NoMemory>
    ensures { OnOk result (text.new ≡ text.old ++ label bytes.now) }
{
    text.append(b"\"")?;
    append_all(alloc, text, bytes)?;
    text.append(b"\"")
}

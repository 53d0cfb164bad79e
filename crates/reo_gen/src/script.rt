//! The script text for stages in a row.
ghost use Rattle.std.specs.Prelude.{◌≡◌, ◌++◌, ◌+◌, ◌≤◌, IfOk, OnOk};
ghost use Rattle.std.specs.List.{flat_map, range_with_len};
ghost use Rattle.reo_gen.specs.Scripts.{write_text, writer_line, taker_line, script_text};

use crate::name::append_numbered;
use reo_values::{Bytes, NoMemory};
use std::alloc::Global;

/// How many numbers are written.
const WRITES: u32 = 20;

/// Adds a write of a number.
fn append_write(alloc: Global, text: &mut Bytes, item: u32) -> Result<(), NoMemory>
    ensures { OnOk result (text.new ≡ text.old ++ write_text item) }
{
    append_numbered(alloc, text, b"write i ", item)?;
    text.append(b"; ")
}

/// Adds the writes of all numbers.
fn append_writes(alloc: Global, text: &mut Bytes) -> Result<(), NoMemory>
    ensures { OnOk result (text.new ≡ text.old ++ flat_map write_text (range_with_len 0 20)) }
{
    for item in 0..WRITES {
        append_write(alloc, text, item)?;
    }
    Ok(())
}

/// Adds the component that writes.
#[tactic(auto, unfolding(crate::specs::Scripts::writer_line))]
fn append_writer(alloc: Global, text: &mut Bytes) -> Result<(), NoMemory>
    ensures { OnOk result (text.new ≡ text.old ++ writer_line) }
{
    text.append(b"component w { ")?;
    append_writes(alloc, text)?;
    text.append(b"}\n")
}

/// Adds the component that takes at an output.
fn append_taker(alloc: Global, text: &mut Bytes, number: u32) -> Result<(), NoMemory>
    ensures { OnOk result (text.new ≡ text.old ++ taker_line number) }
{
    append_numbered(alloc, text, b"component t", number)?;
    text.append(b" { repeat 1000 { take ")?;
    append_numbered(alloc, text, b"o", number)?;
    text.append(b"; } }\n")
}

/// Adds the components that take, one at each output.
fn append_takers(alloc: Global, text: &mut Bytes, stages: u32) -> Result<(), NoMemory>
    requires { stages ≤ 256 }
    ensures { OnOk result
        (text.new ≡ text.old ++ flat_map taker_line (range_with_len 0 (stages + 1))) }
{
    for number in 0..stages + 1 {
        append_taker(alloc, text, number)?;
    }
    Ok(())
}

/// The script text for so many stages. `NoMemory`: out of memory.
#[tactic(auto, unfolding(crate::specs::Scripts::script_text))]
pub(crate) fn script_of(alloc: Global, stages: u32) -> Result<Bytes, NoMemory>
    requires { stages ≤ 256 }
    ensures { IfOk result (λ text. text ≡ script_text stages) }
{
    let mut text = Bytes::new(alloc);
    append_writer(alloc, &mut text)?;
    append_takers(alloc, &mut text, stages)?;
    Ok(text)
}

//! What stands in the picture of a primitive.
ghost use Rattle.std.specs.Prelude.{◌≡◌, ◌++◌, OnOk};
ghost use Rattle.std.specs.List.{flat_map};
ghost use Rattle.reo_drawing.specs.Labels.{offer_text, take_text, line_text, lines_text, size_text, buffer_text, variable_text, kind_text};

use crate::label_texts::{append_expr, append_item};
use reo_buffers::Buffer;
use reo_kinds::{Kind, WriterPort};
use reo_values::{Bytes, NoMemory, Value, append_decimal, value_text};
use std::alloc::Global;

/// Adds the item that is offered at a port, if one is.
fn append_offer(alloc: Global, text: &mut Bytes, port: &WriterPort) -> Result<(), NoMemory>
    ensures { OnOk result (text.new ≡ text.old ++ offer_text port.now) }
{
    let Some(item) = &port.offer else {
        return Ok(());
    };
    let words = value_text(alloc, item, &port.kindred)?;
    text.append(b"!")?;
    text.append(words.as_slice())
}

/// Adds that an item is asked for at a port, if one is.
fn append_take(text: &mut Bytes, pending: bool) -> Result<(), NoMemory>
    ensures { OnOk result (text.new ≡ text.old ++ take_text pending) }
{
    if pending { text.append(b"?") } else { Ok(()) }
}

/// Adds an item on a line of its own.
fn append_line(alloc: Global, text: &mut Bytes, item: &Value) -> Result<(), NoMemory>
    ensures { OnOk result (text.new ≡ text.old ++ line_text item.now) }
{
    text.append(b"\n")?;
    append_item(alloc, text, item)
}

/// Adds items, each on a line of its own.
fn append_lines(alloc: Global, text: &mut Bytes, items: &[Value]) -> Result<(), NoMemory>
    ensures { OnOk result (text.new ≡ text.old ++ lines_text items.now) }
{
    for item in items {
        append_line(alloc, text, item)?;
    }
    Ok(())
}

/// Adds a word with a number.
fn append_size(alloc: Global, text: &mut Bytes, word: &[u8], size: usize) -> Result<(), NoMemory>
    ensures { OnOk result (text.new ≡ text.old ++ size_text word.now size) }
{
    text.append(word)?;
    append_decimal(alloc, text, size as u128)
}

/// Adds a buffer: its word, how many places it has, and its items, that at the front first.
fn append_buffer(
    alloc: Global,
    text: &mut Bytes,
    word: &[u8],
    buffer: &Buffer,
) -> Result<(), NoMemory>
    ensures { OnOk result (text.new ≡ text.old ++ buffer_text word.now buffer.now) }
{
    append_size(alloc, text, word, buffer.size())?;
    let (first, second) = buffer.ring().as_slices();
    append_lines(alloc, text, first)?;
    append_lines(alloc, text, second)
}

/// Adds a variable with what it holds.
fn append_variable(alloc: Global, text: &mut Bytes, held: &Option<Value>) -> Result<(), NoMemory>
    ensures { OnOk result (text.new ≡ text.old ++ variable_text held.now) }
{
    text.append(b"variable")?;
    match held {
        Some(item) => append_line(alloc, text, item),
        None => Ok(()),
    }
}

/// Adds what stands in the picture of a primitive. Ports have their names.
pub(crate) fn append_kind(
    alloc: Global,
    text: &mut Bytes,
    name: &[u8],
    kind: &Kind,
) -> Result<(), NoMemory>
    ensures { OnOk result (text.new ≡ text.old ++ kind_text name.now kind.now) }
{
    match kind {
        Kind::Writer(port) => {
            text.append(name)?;
            append_offer(alloc, text, port)
        }
        Kind::Taker(port) => {
            text.append(name)?;
            append_take(text, port.pending)
        }
        Kind::AsyncDrain => text.append(b"//"),
        Kind::Store(buffer) => append_buffer(alloc, text, b"fifo ", buffer),
        Kind::Shift(buffer) => append_buffer(alloc, text, b"shift ", buffer),
        Kind::Variable(held) => append_variable(alloc, text, held),
        Kind::Quota(left) => append_size(alloc, text, b"quota ", *left as usize),
        Kind::Filter(rule) => {
            text.append(b"/\\/\\/\\\n")?;
            append_expr(alloc, text, &rule.expr)
        }
        Kind::Map(rule) => append_expr(alloc, text, &rule.expr),
        Kind::Sync | Kind::Lossy | Kind::SyncDrain | Kind::Merger(_) | Kind::Replicator(_) => Ok(
            (),
        ),
    }
}

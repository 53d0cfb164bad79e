//! Texts that are large.
use reo_values::{Bytes, NoMemory, append_number};
use std::alloc::Global;

/// The circuit with nothing in it, and blanks behind it up to so many bytes.
pub fn padded(alloc: Global, size: usize) -> Result<Bytes, NoMemory> {
    let mut text = Bytes::from_slice(alloc, b"connector main() { }")?;
    for _ in text.len()..size {
        text.push(b' ')?;
    }
    Ok(text)
}

/// Adds a part of a text for each of so many ports.
fn append_each(
    alloc: Global,
    text: &mut Bytes,
    ports: u32,
    before: &[u8],
    behind: &[u8],
) -> Result<(), NoMemory> {
    for port in 0..ports {
        text.append(before)?;
        append_number(alloc, text, i64::from(port))?;
        text.append(behind)?;
    }
    Ok(())
}

/// Channels from so many ports to one more.
pub fn merger(alloc: Global, ports: u32) -> Result<Bytes, NoMemory> {
    let mut text = Bytes::from_slice(alloc, b"connector main(")?;
    append_each(alloc, &mut text, ports, b"in p", b": int 0..999, ")?;
    text.append(b"out o: int 0..999) {")?;
    append_each(alloc, &mut text, ports, b" sync p", b" o;")?;
    text.append(b" }")?;
    Ok(text)
}

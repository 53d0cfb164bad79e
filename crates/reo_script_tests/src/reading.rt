//! How the tests read scripts.
ghost use Rattle.std.specs.Prelude.{◌≡◌, IfOk};
ghost use Rattle.reo_script_tests.specs.Known.{known, all_known};

use reo_net_base::{Port, Ports, Way};
use reo_script::{Event, EventFault, Script, ScriptFault, read_event, read_script};
use reo_values::{Bytes, Kindred, List, NoMemory};
use std::alloc::Global;

/// A port with a name of one byte, whose items are 0 to 99.
fn port(alloc: Global, name: u8, way: Way) -> Result<Port, NoMemory>
    ensures { IfOk result (λ p. p ≡ known name way) }
{
    let mut bytes = Bytes::new(alloc);
    bytes.push(name)?;
    Ok(Port {
        name: bytes,
        way,
        kindred: Kindred::Int(0, 99),
    })
}

/// The ports a and c for writes, and b and d for takes.
fn ports(alloc: Global) -> Result<Ports, NoMemory>
    ensures { IfOk result (λ p. p.list ≡ all_known) }
{
    let mut list = List::new(alloc);
    list.push(port(alloc, b'a', Way::In)?)?;
    list.push(port(alloc, b'b', Way::Out)?)?;
    list.push(port(alloc, b'c', Way::In)?)?;
    list.push(port(alloc, b'd', Way::Out)?)?;
    Ok(Ports { list })
}

/// The script of a short text for the ports.
pub fn script_of(alloc: Global, text: &[u8]) -> Result<Script, ScriptFault> {
    if text.len() < 65536 {
        read_script(alloc, text, &ports(alloc)?)
    } else {
        Err(ScriptFault::NoMemory)
    }
}

/// A component with these words so many times, the actions, and the ends of all.
pub fn nested(alloc: Global, times: usize, opened: &str, actions: &str) -> Result<Bytes, NoMemory> {
    let mut text = Bytes::from_slice(alloc, b"component x { ")?;
    for _ in 0..times {
        text.append(opened.as_bytes())?;
    }
    text.append(actions.as_bytes())?;
    for _ in 0..times {
        text.append(b" }")?;
    }
    text.append(b" }")?;
    Ok(text)
}

/// A component that is not ended, with this word so many times and the rest.
pub fn opened(alloc: Global, times: usize, word: &str, rest: &str) -> Result<Bytes, NoMemory> {
    let mut text = Bytes::from_slice(alloc, b"component x {")?;
    for _ in 0..times {
        text.append(word.as_bytes())?;
    }
    text.append(rest.as_bytes())?;
    Ok(text)
}

/// A component that writes pairs in one another, a line each, so many.
pub fn deep_script(alloc: Global, times: usize) -> Result<Bytes, NoMemory> {
    let mut text = Bytes::from_slice(alloc, b"component x { write a ")?;
    for _ in 0..times {
        text.append(b"(\n")?;
    }
    text.push(b'1')?;
    for _ in 0..times {
        text.append(b", 1)")?;
    }
    text.append(b"; }")?;
    Ok(text)
}

/// The event of a short line for the ports.
pub fn event_of(alloc: Global, line: &[u8]) -> Result<Event, EventFault> {
    if line.len() < 65536 {
        read_event(alloc, line, &ports(alloc)?)
    } else {
        Err(EventFault::NoMemory)
    }
}

/// A write of pairs in one another, so many.
pub fn deep_line(alloc: Global, times: usize) -> Result<Bytes, NoMemory> {
    let mut line = Bytes::from_slice(alloc, b"write a ")?;
    for _ in 0..times {
        line.push(b'(')?;
    }
    line.push(b'1')?;
    for _ in 0..times {
        line.append(b", 1)")?;
    }
    Ok(line)
}

//! What stands in open circuits in place of kinds.
ghost use Rattle.std.specs.Prelude.{◌≡◌, false, IfOk, map, replicate};
ghost use Rattle.reo_open.specs.Opened.{opened, is_filter, unit_held, unit_stored, HasNoFilter};

use crate::gate::{Gate, GateRows};
use crate::opens::Open;
use reo_buffers::Buffer;
use reo_kinds::Kind;
use reo_values::{List, NoMemory, Value};
use std::alloc::Global;

/// So many units.
fn units(alloc: Global, count: usize) -> Result<List<Value>, NoMemory>
    ensures { IfOk result (λ made. made ≡ replicate count Value.Unit) }
{
    let mut made = List::new(alloc);
    for _index in 0..count {
        made.push(Value::Unit)?;
    }
    Ok(made)
}

/// The buffer with unit in place of each item.
fn unit_buffer(alloc: Global, buffer: &Buffer) -> Result<Buffer, NoMemory>
    ensures { IfOk result (λ made. made ≡ unit_stored buffer.now) }
{
    buffer.known();
    let items = units(alloc, buffer.len())?;
    Buffer::with(alloc, buffer.size(), items)
}

/// Unit in place of an item, if there is one.
fn unit_held(held: &Option<Value>) -> Option<Value>
    ensures { result ≡ unit_held held.now }
{
    match held {
        None => None,
        Some(_) => Some(Value::Unit),
    }
}

/// A gate with all rows.
fn gate(takes: bool) -> Open
    ensures { result ≡ Open.Border (record { takes = takes; allowed = GateRows.All }) }
{
    Open::Border(Gate {
        takes,
        allowed: GateRows::All,
    })
}

/// What stands in place of a kind. `NoMemory` is out of memory.
fn opened(alloc: Global, kind: &Kind) -> Result<Open, NoMemory>
    requires { is_filter kind.now ≡ false }
    ensures { IfOk result (λ made. made ≡ opened kind.now) }
{
    Ok(Open::Inner(match kind {
        Kind::Writer(_) => return Ok(gate(false)),
        Kind::Taker(_) => return Ok(gate(true)),
        Kind::Sync | Kind::Map(_) => Kind::Sync,
        Kind::Lossy => Kind::Lossy,
        Kind::SyncDrain => Kind::SyncDrain,
        Kind::AsyncDrain => Kind::AsyncDrain,
        Kind::Store(buffer) => Kind::Store(unit_buffer(alloc, buffer)?),
        Kind::Shift(buffer) => Kind::Shift(unit_buffer(alloc, buffer)?),
        Kind::Variable(held) => Kind::Variable(unit_held(held)),
        Kind::Quota(left) => Kind::Quota(*left),
        Kind::Merger(branches) => Kind::Merger(*branches),
        Kind::Replicator(branches) => Kind::Replicator(*branches),
        Kind::Filter(_) => unreachable!(),
    }))
}

/// What stands in place of some kinds. `NoMemory` is out of memory.
pub(crate) fn all_opened(alloc: Global, kinds: &[Kind]) -> Result<List<Open>, NoMemory>
    requires { HasNoFilter kinds.now }
    ensures { IfOk result (λ made. made ≡ map opened kinds.now) }
{
    let mut made = List::new(alloc);
    for kind in kinds {
        made.push(opened(alloc, kind)?)?;
    }
    Ok(made)
}

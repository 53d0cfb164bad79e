//! The line that says why boundary tables are not listed.
ghost use Rattle.std.specs.Prelude.{◌≡◌, IfOk};
ghost use Rattle.reo_listing.specs.declared.base.fault.ListFault.TheVariants.{Filter, Spent, Rows};
ghost use Rattle.reo_listing.specs.texts.Refusals.{fault_line};

use crate::base::ListFault;
use crate::texts::numbers::append_numbered;
use reo_values::{Bytes, NoMemory};
use std::alloc::Global;

/// The line of a circuit with a filter. `NoMemory` is out of memory.
fn filter_line(alloc: Global, primitive: usize, budget: u64) -> Result<Bytes, NoMemory>
    ensures { IfOk result (λ line. line ≡ fault_line budget (Filter primitive)) }
{
    let _ = budget;
    let mut line = Bytes::new(alloc);
    append_numbered(
        alloc,
        &mut line,
        b"list refused: filter ",
        primitive as u128,
    )?;
    line.append(b"\n")?;
    Ok(line)
}

/// The line of a part whose table has too many lists. `NoMemory` is out of memory.
fn rows_line(alloc: Global, part: usize, budget: u64) -> Result<Bytes, NoMemory>
    ensures { IfOk result (λ line. line ≡ fault_line budget (Rows part)) }
{
    let _ = budget;
    let mut line = Bytes::new(alloc);
    append_numbered(alloc, &mut line, b"list refused: rows ", part as u128)?;
    line.append(b"\n")?;
    Ok(line)
}

/// The line of a part that weighs too much. `NoMemory` is out of memory.
fn spent_line(alloc: Global, part: usize, weight: u64, budget: u64) -> Result<Bytes, NoMemory>
    ensures { IfOk result (λ line. line ≡ fault_line budget (Spent part weight)) }
{
    let mut line = Bytes::new(alloc);
    append_numbered(alloc, &mut line, b"spent in list: part ", part as u128)?;
    append_numbered(alloc, &mut line, b" weight ", weight as u128)?;
    append_numbered(alloc, &mut line, b" budget ", budget as u128)?;
    line.append(b"\n")?;
    Ok(line)
}

/// The line that says why boundary tables are not listed, its line feed included. `NoMemory` is
/// out of memory, which is also answered for a listing that ran out of it.
pub fn fault_line(alloc: Global, fault: ListFault, budget: u64) -> Result<Bytes, NoMemory>
    ensures { IfOk result (λ line. line ≡ fault_line budget fault) }
{
    match fault {
        ListFault::Filter { primitive } => filter_line(alloc, primitive, budget),
        ListFault::Rows { part } => rows_line(alloc, part, budget),
        ListFault::Spent { part, weight } => spent_line(alloc, part, weight, budget),
        ListFault::NoMemory => Err(NoMemory),
    }
}

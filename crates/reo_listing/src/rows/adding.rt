//! Adding a list of marks to a table.
ghost use Rattle.std.specs.Prelude.{◌≡◌, ◌∷◌, ◌++◌, [], IfOk, OnOk, MatchResult, length, ◌≤◌};
ghost use Rattle.reo_listing.specs.rows.Full.{IsFull};

use crate::base::ListFault;
use reo_net_base::Mark;
use reo_values::{List, NoMemory};
use std::alloc::Global;

/// The most lists of a table.
const MOST: usize = 4096;

/// A copy of some marks. `NoMemory` is out of memory.
fn copied(alloc: Global, marks: &[Mark]) -> Result<List<Mark>, NoMemory>
    ensures { IfOk result (λ made. made ≡ marks.now) }
{
    let mut made = List::new(alloc);
    for mark in marks {
        made.push(*mark)?;
    }
    Ok(made)
}

/// Adds a list of marks to the table of a part.
///
/// # Errors
///
/// `Rows`, where as many lists are there as there may be. `NoMemory` is out of memory.
pub(crate) fn add(
    alloc: Global,
    marks: &[Mark],
    rows: &mut List<List<Mark>>,
    part: usize,
) -> Result<(), ListFault>
    ensures exact { MatchResult result (λ _. rows.new ≡ rows.old ++ marks.now ∷ [])
        (IsFull (length rows.old) part) }
    ensures few { OnOk result (length rows.new ≤ 4096) }
{
    if rows.len() >= MOST {
        return Err(ListFault::Rows { part });
    }
    let copy = copied(alloc, marks)?;
    rows.push(copy)?;
    Ok(())
}

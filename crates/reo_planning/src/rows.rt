//! Rows of all sides, written down part by part.
ghost use Rattle.std.specs.Prelude.{◌≡◌, ◌<◌, ℕ, List as Listed, IfOk, length, slice_index};
ghost use Rattle.reo_net_laws.specs.Sublists.{part_rows};
ghost use Rattle.reo_planning.specs.Written.{AreWritten};

use reo_values::{List, NoMemory};
use std::alloc::Global;

/// A row for each of so many sides, any. `NoMemory` is out of memory.
pub(crate) fn some_rows(alloc: Global, count: usize) -> Result<List<u32>, NoMemory>
    ensures { IfOk result (λ rows. length rows ≡ count) }
{
    match vec![in alloc; 0; count] {
        Ok(rows) => Ok(List::from_vec(rows)),
        Err(_) => Err(NoMemory),
    }
}

/// A copy of rows, made as one block. `NoMemory` is out of memory.
pub(crate) fn copied(alloc: Global, rows: &[u32]) -> Result<List<u32>, NoMemory>
    ensures { IfOk result (λ made. made ≡ rows.now) }
{
    match Vec::from_slice(alloc, rows) {
        Ok(rows) => Ok(List::from_vec(rows)),
        Err(_) => Err(NoMemory),
    }
}

/// The rows, written over what a list has. `NoMemory` is out of memory.
pub fn written_over(list: List<u32>, rows: &[u32]) -> Result<List<u32>, NoMemory>
    ensures { IfOk result (λ made. made ≡ rows.now) }
{
    let mut made = list.into_vec();
    made.clear();
    match made.extend_from_slice(rows) {
        Ok(()) => Ok(List::from_vec(made)),
        Err(_) => Err(NoMemory),
    }
}

/// Writes rows down at some sides.
pub fn put_rows(rows: &mut List<u32>, sides: &[usize], those: &[u32])
    requires one_each { length those.now ≡ length sides.now }
    requires sides { (m : ℕ) → m < length sides.now
        → slice_index sides.now m < length rows.old }
    ensures { (from : Listed ℕ) → those.now ≡ part_rows sides.now from
        → AreWritten sides.now from rows.old rows.new }
{
    for index in 0..sides.len() {
        *rows.at_mut(sides[index]) = those[index];
    }
}
